// Reading a SecurityHeader at the input's first byte: its fields, the steps S1 to S11, and the header that passed them.
ghost use Rattle.std.specs.Prelude.{◌≡◌, true, cond, ◌+◌, ◌%◌, ◌^◌, ◌≤◌, ◌<◌, length, eqb};
ghost use Rattle.octets.specs.Number.{le};
ghost use Rattle.octets.specs.Padding.{padded};
ghost use Rattle.rules.specs.Reading.{header_at, judge, security_number, start_at};
ghost use Rattle.rules.specs.Refusal.{number_of};
ghost use Rattle.rules.specs.Security.{provider_text, security_contents, security_fields, security_length, security_parts, security_steps};
ghost use Rattle.rules.specs.Summary.{no_security, part_of};
ghost use Rattle.reading.specs.Fields.{SecuritySizes, security_read};

use crate::end::end_steps;
use crate::field::{u16_in, u32_in};
use octets::count::Bytes;
use octets::padding::padding;
use octets::part::within;
use rules::layout::part;
use rules::refusal::Cause;
use rules::section::Part;
use rules::security::{
    AU, SecurityFields, SecurityHeader, SecurityParts, security_contents, security_steps,
};

// All zero. (A function, as the next, since its contract names the definition.)
#[tactic(auto, unfolding(rules::specs::Summary::no_security))]
fn no_fields() -> SecurityFields
    ensures { result ≡ no_security.fields }
{
    SecurityFields::default()
}

// Where no SecurityHeader stands first: every number is 0.
#[tactic(auto, unfolding(rules::specs::Summary::no_security))]
pub fn no_security() -> SecurityHeader
    ensures { result ≡ no_security }
{
    SecurityHeader::default()
}

// The fixed fields of a header that is there.
#[tactic(auto, unfolding(rules::specs::Security::security_fields))]
fn fields_of(s: &[u8]) -> SecurityFields
    requires { 16 ≤ length s.now }
    ensures value { result ≡ security_fields s.now }
    ensures security_sizes { SecuritySizes result }
{
    SecurityFields {
        flags: (u16_in(s, Bytes(0)) % 4096) as u32,
        sender_id_size: Bytes(u16_in(s, Bytes(2)) as usize),
        encryption_key_size: Bytes(u16_in(s, Bytes(4)) as usize),
        signature_size: Bytes(u16_in(s, Bytes(6)) as usize),
        sender_cert_size: Bytes(u32_in(s, Bytes(8)) as usize),
        provider_info_size: Bytes(u32_in(s, Bytes(12)) as usize),
    }
}

// The fixed fields; all zero where the 16 bytes are not all there.
#[tactic(auto, unfolding(crate::specs::Fields::security_read, rules::specs::Security::security_fields, rules::specs::Summary::no_security, octets::specs::Number::le, octets::specs::Part::whole))]
pub fn security_fields(s: &[u8]) -> SecurityFields
    ensures value { result ≡ security_read s.now }
    ensures security_sizes { SecuritySizes result }
{
    if s.len() < 16 {
        return no_fields();
    }
    fields_of(s)
}

// Where a part of `size` bytes from `start` ends, with its padding.
#[tactic(auto, unfolding(octets::specs::Padding::padded, octets::specs::Padding::padding))]
fn behind(start: Bytes, size: Bytes) -> Bytes
    requires start_bound { start.0 < 2 ^ 40 }
    requires size_bound { size.0 < 2 ^ 32 }
    ensures result_value { result.0 ≡ start.0 + padded 4 size.0 }
    ensures result_bound { result.0 < start.0 + size.0 + 4 }
{
    Bytes(start.0 + size.0 + padding(size).0)
}

// (Sizes are bounded by clauses, here and below: the struct is C's, of any value, so it keeps no such fact.)
#[tactic(auto, unfolding(rules::specs::Security::security_parts, rules::specs::Security::key_at, rules::specs::Security::signature_at, rules::specs::Security::cert_at, rules::specs::Security::provider_at, rules::specs::Security::security_length))]
pub(crate) fn security_parts(f: SecurityFields) -> SecurityParts
    requires { SecuritySizes f }
    ensures { result ≡ security_parts f }
{
    let key_at = behind(Bytes(16), f.sender_id_size);
    let signature_at = behind(key_at, f.encryption_key_size);
    let cert_at = behind(signature_at, f.signature_size);
    let provider_at = behind(cert_at, f.sender_cert_size);
    let length = behind(provider_at, f.provider_info_size);
    SecurityParts {
        sender_id: part(Bytes(16), f.sender_id_size),
        encryption_key: part(key_at, f.encryption_key_size),
        signature: part(signature_at, f.signature_size),
        sender_cert: part(cert_at, f.sender_cert_size),
        provider_info: part(provider_at, f.provider_info_size),
        length,
    }
}

#[tactic(auto, unfolding(rules::specs::Security::security_parts))]
fn length_of(f: SecurityFields) -> Bytes
    requires { SecuritySizes f }
    ensures { result.0 ≡ security_length f }
{
    security_parts(f).length
}

// Where the header at the input's first byte ends, as its fixed bytes say; also above the limit.
pub fn security_end(s: &[u8]) -> Bytes
    ensures { result.0 ≡ security_length (security_read s.now) }
{
    length_of(security_fields(s))
}

// S10 and S11
fn contents_steps(s: &[u8], f: SecurityFields) -> Result<(), Cause>
    requires { SecuritySizes f }
    ensures { number_of result ≡ security_contents f (part_of s.now (security_parts f).sender_id)
        (provider_text (part_of s.now (security_parts f).provider_info)) }
{
    let parts = security_parts(f);
    let identity = within(s, parts.sender_id.start, parts.sender_id.length);
    let info = within(s, parts.provider_info.start, parts.provider_info.length);
    security_contents(f, identity, info)
}

// S1 to S11
#[tactic(auto, unfolding(rules::specs::Reading::security_number, rules::specs::Security::read_security, rules::specs::Security::security_contents, rules::specs::Refusal::first_of, rules::specs::Refusal::number_of, rules::specs::Refusal::number))]
pub(crate) fn security_steps_of(s: &[u8]) -> Result<(), Cause>
    ensures { number_of result ≡ security_number true s.now }
{
    if s.len() < 16 {
        return Err(Cause::InputShort);
    }
    let fields = fields_of(s);
    security_steps(fields)?;
    end_steps(Bytes(s.len()), length_of(fields))?;
    contents_steps(s, fields)
}

// The provider info of the header at the input's first byte; none where it is not all there.
pub(crate) fn provider_info(s: &[u8], f: SecurityFields) -> &[u8]
    requires { SecuritySizes f }
    ensures { result.now ≡ part_of s.now (security_parts f).provider_info }
{
    let info = security_parts(f).provider_info;
    within(s, info.start, info.length)
}

// A byte of the identity for ST 1, else 0.
pub(crate) fn sid_byte(flags: u32, byte: u8) -> u8
    ensures { result ≡ cond (eqb (flags % 16) 1) byte 0 }
{
    if flags % AU == 1 {
        return byte;
    }
    0
}

// The type at the front of the provider info, 0 where there is none.
fn provider_type(s: &[u8], info: Part) -> u32
    requires { info.start.0 + 4 ≤ length s.now }
    ensures { result ≡ cond (eqb info.length.0 0) 0 (le 4 s.now info.start.0) }
{
    if info.length.0 == 0 {
        return 0;
    }
    u32_in(s, info.start)
}

// The length of a header that passed its steps.
pub(crate) fn header_length(s: &[u8]) -> Bytes
    requires { security_number true s.now ≡ 0 }
    ensures { result.0 ≡ start_at true s.now }
{
    length_of(fields_of(s))
}

// The header of a section that passed every step: identity and provider info are then in the input.
pub(crate) fn security_header(s: &[u8]) -> SecurityHeader
    requires { (judge true s.now).number ≡ 0 }
    ensures { result ≡ header_at true s.now }
{
    let fields = fields_of(s);
    let parts = security_parts(fields);
    let info = parts.provider_info;
    SecurityHeader {
        fields,
        parts,
        sid_revision: sid_byte(fields.flags, s[16]),
        sid_sub_authority_count: sid_byte(fields.flags, s[17]),
        provider_type: provider_type(s, info),
    }
}
