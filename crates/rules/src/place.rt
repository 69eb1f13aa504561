// The refusal by a number that the steps gave, with the place of the field that failed. Asked only where a step failed.
ghost use Rattle.std.specs.Prelude.{◌≡◌, ◌+◌, ◌≤◌, min, length};
ghost use Rattle.rules.specs.Place.{name_break, name_place, properties_place, refusal_at, security_place};
ghost use Rattle.rules.specs.Refusal.{limit};
ghost use Rattle.rules.specs.Security.{provider_at};

use crate::refusal::{Cause, Refusal};
use crate::section::LIMIT;
use crate::security::{DP, SecurityFields, provider_name, security_length, security_steps};
use octets::count::{Bytes, smaller};
use octets::text::first_break;

// Where the provider info begins, but at most one byte above the limit, so that no sum wraps.
pub fn provider_at(f: SecurityFields) -> Bytes
    ensures { result.0 ≡ min (limit + 1) (provider_at f) }
{
    security_length(SecurityFields {
        provider_info_size: Bytes(0),
        ..f
    })
}

// The first unit of the provider's name that breaks the rule.
#[tactic(auto, unfolding(crate::specs::Place::name_break, crate::specs::Place::name_place))]
fn name_place(f: SecurityFields, info: &[u8]) -> Bytes
    ensures { result.0 ≡ name_place (min (limit + 1) (provider_at f)) (name_break info.now) }
{
    Bytes(provider_at(f).0 + 4 + first_break(provider_name(info)).0)
}

// Where the field of an S step begins. (By number: `section_refusal` answers for any.)
#[tactic(auto, unfolding(crate::specs::Place::security_place, crate::specs::Refusal::number))]
fn security_place(number: u32, f: SecurityFields, info: &[u8]) -> Bytes
    ensures { result.0 ≡ security_place number f (min (limit + 1) (provider_at f)) (name_break info.now) }
{
    if number == Cause::EmptyOrDpClear.number() {
        if f.flags / DP % 2 == 0 {
            return Bytes(0);
        }
        return Bytes(2);
    }
    if number == Cause::CertificateSize.number() {
        return Bytes(8);
    }
    if number == Cause::Identity.number() {
        return Bytes(2);
    }
    let is_provider = number == Cause::Provider.number();
    if is_provider {
        if security_steps(f).is_ok() {
            return name_place(f, info);
        }
    }
    Bytes(0)
}

// Where the field of a P step begins, counted from the header's first byte. (By number too.)
#[tactic(auto, unfolding(crate::specs::Place::properties_place, crate::specs::Refusal::number))]
fn properties_place(number: u32, label: &[u8]) -> Bytes
    ensures result_value { result.0 ≡ properties_place number label.now }
    ensures result_bound { result.0 ≤ 56 + length label.now }
{
    if number == Cause::LabelLength.number() {
        return Bytes(1);
    }
    if number == Cause::Class.number() {
        return Bytes(2);
    }
    if number == Cause::Allocation.number() {
        return Bytes(36);
    }
    if number == Cause::Label.number() {
        return Bytes(56 + first_break(label).0);
    }
    Bytes(0)
}

// The refusal by a number of the header at `at`: of the SecurityHeader, where one stands first and `at` is 0.
// (Public, and its parameters are those of the definition `refusal_at`.)
#[tactic(auto, unfolding(crate::specs::Place::refusal_at, crate::specs::Place::properties_refusal))]
pub fn section_refusal(
    number: u32,
    at: Bytes,
    security_first: bool,
    f: SecurityFields,
    info: &[u8],
    label: &[u8],
) -> Refusal
    ensures { result ≡ refusal_at security_first f (name_break info.now) label.now number at.0 }
{
    let is_security = security_first & (at.0 == 0);
    if is_security {
        return Refusal {
            number,
            place: security_place(number, f, info),
        };
    }
    let start = smaller(Bytes(LIMIT + 1), at);
    Refusal {
        number,
        place: Bytes(start.0 + properties_place(number, label).0),
    }
}
