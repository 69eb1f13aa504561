// The field at a place, and the field that a refusal is about.
ghost use Rattle.std.specs.Prelude.{◌≡◌, ◌&&◌, cond, ◌+◌, ◌^◌, ◌<◌, eqb, length};
ghost use Rattle.fields.specs.Field.{behind_security, counts, field, field_at, field_in, of_header, refused_field};

use crate::field;
use crate::field::FieldAt;
use crate::widths::{properties_widths, security_widths};
use octets::count::Bytes;
use reading::properties::properties_fields;
use reading::security::{security_end, security_fields};
use rules::refusal::{Cause, Refusal};

// Of fields of these widths, numbered from `first`, the one at an offset.
fn field_in(first: u32, widths: &[Bytes], at: Bytes) -> FieldAt
    requires { first + length widths.now < 2 ^ 32 }
    ensures { result ≡ field_in first (counts widths.now) at.0 }
{
    // By `enumerate` the number would be cast from a `usize`, which is no plainer.
    let mut number = first;
    let mut rest = at.0;
    for width in widths {
        if rest < width.0 {
            return FieldAt::new(number, Bytes(rest));
        }
        rest -= width.0;
        number += 1;
    }
    FieldAt::none()
}

// Where the MessagePropertiesHeader begins.
fn behind_security(s: &[u8], security_first: bool) -> Bytes
    ensures { result.0 ≡ behind_security security_first s.now }
{
    if security_first {
        return security_end(s);
    }
    Bytes(0)
}

// The field at a place of the input, as the fixed bytes lay the section out, whether it is accepted or refused; none
// where the input or the section has no such byte.
#[tactic(auto, unfolding(crate::specs::Field::field_at))]
pub fn field_at(s: &[u8], security_first: bool, place: Bytes) -> FieldAt
    ensures { result ≡ field_at security_first s.now place.0 }
{
    if s.len() <= place.0 {
        return FieldAt::none();
    }
    let start = behind_security(s, security_first);
    if place.0 < start.0 {
        let widths = security_widths(security_fields(s));
        return field_in(field::SECURITY_FLAGS, &widths, place);
    }
    let widths = properties_widths(properties_fields(s, start));
    field_in(field::FLAGS, &widths, Bytes(place.0 - start.0))
}

// Whether a refusal is about a header and none of its fields. (By number: C hands any in.)
#[tactic(auto, unfolding(crate::specs::Field::of_header, rules::specs::Refusal::number))]
fn is_of_header(refused: Refusal) -> bool
    ensures { result ≡ of_header refused }
{
    let number = refused.number;
    number == Cause::InputShort.number()
        || number == Cause::AboveTheLimit.number()
        || (number == Cause::Provider.number() && refused.place.0 == 0)
}

fn header_at(security_first: bool, place: Bytes) -> FieldAt
    ensures { result ≡ cond (security_first && eqb place.0 0) (field 34 0) (field 35 0) }
{
    if security_first && place.0 == 0 {
        return FieldAt::new(field::SECURITY_HEADER, Bytes(0));
    }
    FieldAt::new(field::MESSAGE_PROPERTIES_HEADER, Bytes(0))
}

// The field that a refusal of reading is about, at its place in the same input; the header, where it is about no field;
// none for a number that reading does not give. With number 0 it names the place alone.
#[tactic(auto, unfolding(crate::specs::Field::refused_field, rules::specs::Refusal::number))]
pub fn refused_field(s: &[u8], security_first: bool, refused: Refusal) -> FieldAt
    ensures { result ≡ refused_field security_first s.now refused }
{
    if Cause::Label.number() < refused.number {
        return FieldAt::none();
    }
    if is_of_header(refused) {
        return header_at(security_first, refused.place);
    }
    field_at(s, security_first, refused.place)
}
