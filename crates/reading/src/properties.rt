// Reading a MessagePropertiesHeader: its fields, the steps P1 to P7, and its parts.
ghost use Rattle.std.specs.Prelude.{◌≡◌, [], ◌+◌, ◌^◌, ◌≤◌, ◌<◌, drop, length};
ghost use Rattle.rules.specs.Properties.{properties_fields, properties_length, properties_parts, properties_steps};
ghost use Rattle.rules.specs.Reading.{properties_number};
ghost use Rattle.rules.specs.Refusal.{limit, number_of};
ghost use Rattle.rules.specs.Summary.{part_of};
ghost use Rattle.reading.specs.Fields.{PropertiesSizes, properties_read};

use crate::end::end_steps;
use crate::field::{u16_in, u32_in};
use octets::count::{Bytes, Units};
use octets::padding::padding;
use octets::part::within;
use rules::layout::part;
use rules::properties::{PropertiesFields, PropertiesParts, label_contents, properties_steps};
use rules::refusal::Cause;

// All zero. (A function, since its contract is what the definition reads of no bytes.)
#[tactic(auto, unfolding(rules::specs::Properties::properties_fields, octets::specs::Number::le))]
fn no_fields() -> PropertiesFields
    ensures { result ≡ properties_fields [] }
{
    PropertiesFields::default()
}

// The fixed fields of a header that is there.
#[tactic(auto, unfolding(rules::specs::Properties::properties_fields, octets::specs::Number::le))]
fn fields_of(h: &[u8]) -> PropertiesFields
    requires { 56 ≤ length h.now }
    ensures value { result ≡ properties_fields h.now }
    ensures properties_sizes { PropertiesSizes result }
{
    PropertiesFields {
        flags: h[0] % 16,
        label_length: Units(h[1] as u32),
        message_class: u16_in(h, Bytes(2)),
        body_type: u32_in(h, Bytes(24)),
        message_size: Bytes(u32_in(h, Bytes(32)) as usize),
        allocation_body_size: Bytes(u32_in(h, Bytes(36)) as usize),
        privacy_level: u32_in(h, Bytes(40)),
        hash_algorithm: u32_in(h, Bytes(44)),
        encryption_algorithm: u32_in(h, Bytes(48)),
        extension_size: Bytes(u32_in(h, Bytes(52)) as usize),
    }
}

// The same, of the header at `at`.
pub(crate) fn fields_at(s: &[u8], at: Bytes) -> PropertiesFields
    requires { at.0 + 56 ≤ length s.now }
    ensures value { result ≡ properties_fields (drop at.0 s.now) }
    ensures properties_sizes { PropertiesSizes result }
{
    let start = at.0;
    fields_of(&s[start..])
}

// The fixed fields of the header at `at`; all zero where the 56 bytes are not all there.
#[tactic(auto, unfolding(crate::specs::Fields::properties_read, rules::specs::Properties::properties_fields, octets::specs::Number::le, octets::specs::Part::whole))]
pub fn properties_fields(s: &[u8], at: Bytes) -> PropertiesFields
    ensures value { result ≡ properties_read s.now at.0 }
    ensures properties_sizes { PropertiesSizes result }
{
    let start = at.0;
    if s.len() < start {
        return no_fields();
    }
    let header = &s[start..];
    if header.len() < 56 {
        return no_fields();
    }
    fields_of(header)
}

// (Sizes are bounded by clauses, here and below: the struct is C's, of any value, so it keeps no such fact.)
#[tactic(auto, unfolding(rules::specs::Properties::properties_parts, rules::specs::Properties::extension_at, rules::specs::Properties::body_at, rules::specs::Properties::properties_length, octets::specs::Padding::padded, octets::specs::Padding::padding))]
pub(crate) fn properties_parts(f: PropertiesFields, at: Bytes) -> PropertiesParts
    requires properties_sizes { PropertiesSizes f }
    requires at_bound { at.0 < 2 ^ 40 }
    ensures { result ≡ properties_parts at.0 f }
{
    let start = at.0;
    let label = f.label_length.bytes();
    let extension_at = start + 56 + label.0;
    let body_at = extension_at + f.extension_size.0;
    let end = body_at + f.message_size.0;
    PropertiesParts {
        label: part(Bytes(start + 56), label),
        extension: part(Bytes(extension_at), f.extension_size),
        body: part(Bytes(body_at), f.message_size),
        section_length: Bytes(end + padding(Bytes(end - start)).0),
    }
}

// Where the section ends, its header at `at`; also above the limit.
#[tactic(auto, unfolding(rules::specs::Properties::properties_parts))]
pub(crate) fn end_of(f: PropertiesFields, at: Bytes) -> Bytes
    requires properties_sizes { PropertiesSizes f }
    requires at_bound { at.0 < 2 ^ 40 }
    ensures { result.0 ≡ at.0 + properties_length f }
{
    properties_parts(f, at).section_length
}

// The label of the header at `at`; none where it is not all there.
#[tactic(auto, unfolding(rules::specs::Properties::properties_parts))]
pub(crate) fn label_at(s: &[u8], f: PropertiesFields, at: Bytes) -> &[u8]
    requires { at.0 ≤ limit }
    ensures { result.now ≡ part_of s.now (properties_parts at.0 f).label }
{
    within(s, Bytes(at.0 + 56), f.label_length.bytes())
}

// P1 to P7
#[inline(always)]
#[tactic(auto, unfolding(rules::specs::Reading::properties_number, rules::specs::Properties::read_properties, rules::specs::Refusal::first_of, rules::specs::Refusal::number_of, rules::specs::Refusal::number))]
pub(crate) fn properties_steps_of(s: &[u8], at: Bytes) -> Result<(), Cause>
    requires { at.0 ≤ limit }
    ensures { number_of result ≡ properties_number s.now at.0 }
{
    if s.len() < at.0 + 56 {
        return Err(Cause::InputShort);
    }
    let fields = fields_at(s, at);
    properties_steps(fields)?;
    end_steps(Bytes(s.len()), end_of(fields, at))?;
    label_contents(label_at(s, fields, at))
}
