// The section writer: every step first, then the headers, each lent the output behind the last.
ghost use Rattle.std.specs.Prelude.{◌≡◌, ◌+◌, min};
ghost use Rattle.octets.specs.Over.{over};
ghost use Rattle.rules.specs.Refusal.{judged_of, limit, number, number_of, refusal};
ghost use Rattle.writing.specs.Given.{lent, security_given};
ghost use Rattle.writing.specs.Laid.{SectionLaid};
ghost use Rattle.writing.specs.Writing.{base_write_refusal, header_number, section_bytes, start_of};
ghost use Rattle.writing.specs.Writing.{write_answer, write_bytes, write_refusal};

use crate::properties::{properties_given, properties_number, write_properties};
use crate::security::{security_given, security_number, write_security};
use crate::values::SectionGiven;
use octets::count::Bytes;
use rules::place::section_refusal;
use rules::properties::section_end;
use rules::refusal::{Cause, Failed, Refusal};
use rules::section::output_short;
use rules::security::{SecurityFields, security_length};

// 28 and the steps on the SecurityHeader, where one stands first.
#[tactic(auto, unfolding(crate::specs::Writing::header_number, rules::specs::Refusal::number_of, rules::specs::Refusal::number))]
fn header_number(
    security_first: bool,
    f: SecurityFields,
    identity: &[u8],
    info: &[u8],
) -> Result<(), Cause>
    ensures { number_of result ≡ header_number security_first f identity.now info.now }
{
    if security_first {
        return security_number(f, identity, info);
    }
    Ok(())
}

// Where the MessagePropertiesHeader begins, but at most one byte above the limit.
fn properties_start(security_first: bool, f: SecurityFields) -> Bytes
    ensures { result.0 ≡ min (limit + 1) (start_of security_first f) }
{
    if security_first {
        return security_length(f);
    }
    Bytes(0)
}

// Where the MessagePropertiesHeader begins, where every step but 13 passes, or the first that fails. (By `match`, as
// `reading::section::base_judge` says.)
fn judge(given: &SectionGiven<'_>) -> Result<Bytes, Failed>
    ensures { judged_of result ≡ base_write_refusal (lent given.now) }
{
    let security = security_given(given);
    let first = given.values.security_first;
    if let Err(cause) = header_number(first, security, given.sender_id, given.provider_info) {
        return Err(Failed {
            cause,
            header: Bytes(0),
        });
    }
    let at = properties_start(first, security);
    match properties_number(given, at) {
        Ok(()) => Ok(at),
        Err(cause) => Err(Failed { cause, header: at }),
    }
}

// The section, where every step has passed and the output has room. Its MessagePropertiesHeader begins at `start`.
fn write_headers(given: &SectionGiven<'_>, start: Bytes, out: &mut [u8])
    requires { SectionLaid (lent given.now) start.0 out.old }
    ensures { out.new ≡ over (section_bytes (lent given.now)) out.old }
{
    if given.values.security_first {
        write_security(given, out);
    }
    let at = start.0;
    write_properties(given, &mut out[at..]);
}

// 13, and the section, where every step before has passed.
fn write_judged(given: &SectionGiven<'_>, start: Bytes, out: &mut [u8]) -> Result<Bytes, Refusal>
    requires { base_write_refusal (lent given.now) ≡ refusal 0 start.0 }
    ensures value { result ≡ write_answer (lent given.now) out.old }
    ensures out_after { out.new ≡ write_bytes (lent given.now) out.old }
{
    let length = section_end(properties_given(given), start);
    if out.len() < length.0 {
        return output_short();
    }
    write_headers(given, start, out);
    Ok(length)
}

// The refusal of a step that failed so, its place that of the field that failed. (The fields are made anew, so that no
// struct of them is held for this alone.)
fn placed(given: &SectionGiven<'_>, failed: Failed) -> Refusal
    requires { refusal (number failed.cause) failed.header.0 ≡ base_write_refusal (lent given.now) }
    ensures { result ≡ write_refusal (lent given.now) }
{
    section_refusal(
        failed.cause.number(),
        failed.header,
        given.values.security_first,
        security_given(given),
        given.provider_info,
        given.label,
    )
}

// Writes the section at the front of the output, or refuses and writes nothing: the steps in 01's order, and 13 last.
// Bytes behind the section stay as they are.
pub fn write_section(given: &SectionGiven<'_>, out: &mut [u8]) -> Result<Bytes, Refusal>
    ensures value { result ≡ write_answer (lent given.now) out.old }
    ensures out_after { out.new ≡ write_bytes (lent given.now) out.old }
{
    match judge(given) {
        Ok(start) => write_judged(given, start, out),
        Err(failed) => Err(placed(given, failed)),
    }
}
