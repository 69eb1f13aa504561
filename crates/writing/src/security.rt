// Writing a SecurityHeader: its fields, 28 and the steps on them, its fixed bytes and its parts.
ghost use Rattle.std.specs.Prelude.{◌≡◌, ◌+◌, ◌≤◌, length};
ghost use Rattle.octets.specs.Over.{over};
ghost use Rattle.rules.specs.Refusal.{number_of};
ghost use Rattle.rules.specs.Row.{row_bytes};
ghost use Rattle.rules.specs.Security.{security_row};
ghost use Rattle.writing.specs.Fixed.{SecuritySized};
ghost use Rattle.writing.specs.Given.{lent, security_given};
ghost use Rattle.writing.specs.Laid.{parts_length};
ghost use Rattle.writing.specs.Writing.{security_bytes, security_parts_bytes, write_security};

use crate::field::write_field;
use crate::part::write_padded_part;
use crate::values::SectionGiven;
use octets::count::Bytes;
use octets::number::{u16_bytes, u32_bytes};
use rules::refusal::Cause;
use rules::section::LIMIT;
use rules::security::{
    SecurityFields, part_too_large, security_contents, security_length, security_steps,
};

#[tactic(auto, unfolding(crate::specs::Given::security_from))]
pub(crate) fn security_given(given: &SectionGiven<'_>) -> SecurityFields
    ensures { result ≡ security_given (lent given.now) }
{
    SecurityFields {
        flags: (given.values.security_flags % 4096) as u32,
        sender_id_size: Bytes(given.sender_id.len()),
        encryption_key_size: Bytes(given.encryption_key.len()),
        signature_size: Bytes(given.signature.len()),
        sender_cert_size: Bytes(given.sender_cert.len()),
        provider_info_size: Bytes(given.provider_info.len()),
    }
}

// 28, S2 to S8, S10 and S11
#[tactic(auto, unfolding(crate::specs::Writing::write_security, rules::specs::Refusal::number_of, rules::specs::Refusal::number, rules::specs::Refusal::first_of))]
pub(crate) fn security_number(f: SecurityFields, identity: &[u8], info: &[u8]) -> Result<(), Cause>
    ensures { number_of result ≡ write_security f identity.now info.now }
{
    if part_too_large(f.encryption_key_size, f.signature_size, f.sender_cert_size) {
        return Err(Cause::PartTooLarge);
    }
    security_steps(f)?;
    if LIMIT < security_length(f).0 {
        return Err(Cause::AboveTheLimit);
    }
    security_contents(f, identity, info)
}

fn write_security_fixed(f: SecurityFields, out: &mut [u8])
    requires security_sized { SecuritySized f }
    requires in_bounds { 16 ≤ length out.old }
    ensures { out.new ≡ over (row_bytes security_row f) out.old }
{
    write_field(out, Bytes(0), u16_bytes(f.flags as u16));
    write_field(out, Bytes(2), u16_bytes(f.sender_id_size.0 as u16));
    write_field(out, Bytes(4), u16_bytes(f.encryption_key_size.0 as u16));
    write_field(out, Bytes(6), u16_bytes(f.signature_size.0 as u16));
    write_field(out, Bytes(8), u32_bytes(f.sender_cert_size.0 as u32));
    write_field(out, Bytes(12), u32_bytes(f.provider_info_size.0 as u32));
}

// Each part with its padding, lent the output behind the last.
fn write_security_parts(given: &SectionGiven<'_>, out: &mut [u8])
    requires { parts_length (lent given.now) ≤ length out.old }
    ensures { out.new ≡ over (security_parts_bytes (lent given.now)) out.old }
{
    let key_at = write_padded_part(given.sender_id, out).0;
    let signature_at = key_at + write_padded_part(given.encryption_key, &mut out[key_at..]).0;
    let cert_at = signature_at + write_padded_part(given.signature, &mut out[signature_at..]).0;
    let provider_at = cert_at + write_padded_part(given.sender_cert, &mut out[cert_at..]).0;
    write_padded_part(given.provider_info, &mut out[provider_at..]);
}

// The header, where the output has room for it.
pub(crate) fn write_security(given: &SectionGiven<'_>, out: &mut [u8])
    requires security_sized { SecuritySized (security_given (lent given.now)) }
    requires provider_info_in_bounds { 16 + parts_length (lent given.now) ≤ length out.old }
    ensures { out.new ≡ over (security_bytes (lent given.now)) out.old }
{
    write_security_fixed(security_given(given), out);
    write_security_parts(given, &mut out[16..]);
}
