// The line of a section that is refused: the number, the place, the field there, and the rule that it breaks.
use crate::field::name;
use crate::page::Page;
use fields::field;
use fields::field::FieldAt;
use fields::place::refused_field;
use rules::refusal::{Cause, Refusal};
use std::fmt::Write;

// The rule that a section breaks. No section is refused for another cause than these.
fn rule(cause: Cause) -> &'static str {
    match cause {
        Cause::InputShort => "input ends before the section does",
        Cause::SenderKind => "ST above 2",
        Cause::AuOrAs => "AU or AS not zero",
        Cause::EmptyOrDpClear => "all five sizes zero, or DP clear",
        Cause::CertificateSize => "SenderCertSize above 65,535",
        Cause::Identity => "SenderIdSize or identity not as ST asks",
        Cause::Provider => "ProviderInfoSize or provider info not as DE and signature ask",
        Cause::AboveTheLimit => "longer than 4,194,304 bytes",
        Cause::LabelLength => "LabelLength above 250, or a label of an odd number of bytes",
        Cause::Class => "MessageClass not listed",
        Cause::Allocation => "AllocationBodySize below MessageSize or above 4,194,304",
        Cause::Label => "label in which not only the last unit is zero",
        Cause::OutputShort => "output too short",
        _ => "",
    }
}

// The field there, where there is one, and in a text the unit, counted from 0.
fn field_there(page: &mut Page, found: FieldAt) {
    let name = name(found.field);
    let _ = match found.field {
        field::NONE => Ok(()),
        field::LABEL | field::PROVIDER_NAME => {
            let unit = found.offset.units().0;
            write!(page, " ({name} unit {unit})")
        }
        _ => write!(page, " ({name})"),
    };
}

// Of the section in `s`.
pub(crate) fn refused(page: &mut Page, s: &[u8], security_first: bool, r: Refusal) {
    let _ = write!(page, "refused {} at {}", r.number, r.place.0);
    field_there(page, refused_field(s, security_first, r));
    let broken = Cause::try_from(r.number).map_or("", rule);
    let _ = writeln!(page, ": {broken}");
}
