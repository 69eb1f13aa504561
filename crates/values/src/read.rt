// Reading a body as one number.
ghost use Rattle.std.specs.Prelude.{◌≡◌, IfOk, ◌%◌, ◌/◌, ◌^◌, ◌≤◌, ◌<◌, eqb, length};
ghost use Rattle.octets.specs.Number.{le};
ghost use Rattle.rules.specs.Properties.{properties_parts};
ghost use Rattle.rules.specs.Reading.{header_at, judge};
ghost use Rattle.rules.specs.Refusal.{limit, number_of};
ghost use Rattle.rules.specs.Security.{EB};
ghost use Rattle.rules.specs.Summary.{part_of};
ghost use Rattle.reading.specs.Fields.{PropertiesSizes};
ghost use Rattle.values.specs.Read.{read_value, value_in, value_of, value_of_bits, value_steps};
ghost use Rattle.values.specs.Value.{size_of, type_of};

use crate::value::{BodyValue, Kind, value_from};
use octets::count::Bytes;
use octets::number::{u32_at, u64_at};
use octets::part::within;
use reading::properties::properties_fields;
use reading::section::judge;
use reading::security::security_fields;
use rules::properties::PropertiesFields;
use rules::refusal::{Cause, Refusal};
use rules::security;

// 62, 60, 61: the kind of a body of so many bytes, which may be encrypted.
#[tactic(auto, unfolding(crate::specs::Read::value_steps, rules::specs::Refusal::number_of, rules::specs::Refusal::number))]
fn kind_in(encrypted: bool, body_type: u32, size: Bytes) -> Result<Kind, Cause>
    ensures steps { number_of result ≡ value_steps encrypted body_type size.0 }
    ensures kind { IfOk result (λ k. type_of k ≡ body_type) }
{
    if encrypted {
        return Err(Cause::BodyEncrypted);
    }
    let kind = Kind::try_from(body_type)?;
    if size.0 != kind.size().0 {
        return Err(Cause::BodySize);
    }
    Ok(kind)
}

// The body as one number.
#[tactic(auto, unfolding(crate::specs::Value::size_of, crate::specs::Value::type_of))]
fn body_bits(kind: Kind, body: &[u8]) -> u64
    ensures value { result ≡ le (size_of (type_of kind)) body.now 0 }
    ensures upper_bound { result < 256 ^ size_of (type_of kind) }
{
    match kind {
        Kind::R8 => u64_at(body, Bytes(0)),
        _ => u32_at(body, Bytes(0)) as u64,
    }
}

// The value of a body, which may be encrypted.
#[tactic(auto, unfolding(crate::specs::Read::value_where, rules::specs::Refusal::number_of))]
fn value_in(encrypted: bool, body_type: u32, body: &[u8]) -> Result<BodyValue, Refusal>
    ensures { result ≡ value_in encrypted body_type (length body.now) body.now }
{
    match kind_in(encrypted, body_type, Bytes(body.len())) {
        Ok(kind) => Ok(value_from(kind, body_bits(kind, body))),
        Err(cause) => Err(Refusal::at_start(cause)),
    }
}

// The value of a body, given its BodyType: for who has both from elsewhere, as after decryption. 60, 61.
#[tactic(auto, unfolding(crate::specs::Read::value_of))]
pub fn value_of(body_type: u32, body: &[u8]) -> Result<BodyValue, Refusal>
    ensures { result ≡ value_of body_type body.now }
{
    value_in(false, body_type, body)
}

// Those bits that a body of this kind has.
#[tactic(auto, unfolding(crate::specs::Value::size_of, crate::specs::Value::type_of))]
fn low_bits(kind: Kind, bits: u64) -> u64
    ensures { result ≡ bits % 256 ^ size_of (type_of kind) }
{
    match kind {
        Kind::R8 => bits,
        _ => bits % 4294967296,
    }
}

// The value with these bits, of which those count that its body has.
#[tactic(auto, unfolding(crate::specs::Read::value_of_bits, rules::specs::Refusal::number))]
pub fn value_of_bits(body_type: u32, bits: u64) -> Result<BodyValue, Refusal>
    ensures { result ≡ value_of_bits body_type bits }
{
    match Kind::try_from(body_type) {
        Ok(kind) => Ok(value_from(kind, low_bits(kind, bits))),
        Err(cause) => Err(Refusal::at_start(cause)),
    }
}

// Whether EB is set in the SecurityHeader, where one stands first. (The clause stays, as over `reading::section::header_at`.)
#[tactic(auto, unfolding(rules::specs::Reading::header_at, rules::specs::Summary::no_security))]
fn is_encrypted(s: &[u8], security_first: bool) -> bool
    requires { (judge security_first s.now).number ≡ 0 }
    ensures { result ≡ eqb (EB (header_at security_first s.now).fields) 1 }
{
    if !security_first {
        return false;
    }
    security_fields(s).flags / security::EB % 2 == 1
}

// The body of the section whose MessagePropertiesHeader is at `at`.
#[tactic(auto, unfolding(rules::specs::Properties::properties_parts, rules::specs::Properties::body_at, rules::specs::Properties::extension_at))]
fn body_at(s: &[u8], f: PropertiesFields, at: Bytes) -> &[u8]
    requires properties_sizes { PropertiesSizes f }
    requires at_le_limit { at.0 ≤ limit }
    ensures { result.now ≡ part_of s.now (properties_parts at.0 f).body }
{
    let start = at.0 + 56 + f.label_length.bytes().0 + f.extension_size.0;
    within(s, Bytes(start), f.message_size)
}

// Reads the section, and its body as one number by BodyType: the section's refusals, then 62, 60, 61.
#[tactic(auto, unfolding(crate::specs::Read::read_value, crate::specs::Read::section_value, reading::specs::Case::judged_once, rules::specs::Reading::summarize))]
pub fn read_value(s: &[u8], security_first: bool) -> Result<BodyValue, Refusal>
    ensures { result ≡ read_value security_first s.now }
{
    let at = judge(s, security_first)?;
    let encrypted = is_encrypted(s, security_first);
    let fields = properties_fields(s, at);
    value_in(encrypted, fields.body_type, body_at(s, fields, at))
}
