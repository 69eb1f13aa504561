// SecurityHeader: its fields, its parts, its length, and the steps S2 to S7, S10 and S11.
ghost use Rattle.std.specs.Prelude.{◌≡◌, ◌+◌, ◌-◌, ◌/◌, min, drop};
ghost use Rattle.rules.specs.Layout.{LargestSize};
ghost use Rattle.rules.specs.Refusal.{limit, number_of};
ghost use Rattle.rules.specs.Security.{all_empty, identity_size, identity_head, part_too_large, provider_size, provider_text, security_contents, security_length, security_steps};

use crate::layout::{larger, padded};
use crate::refusal::Cause;
use crate::section::{LIMIT, Part};
use octets::count::Bytes;
use octets::number::u8_at;
use octets::text::is_text;

// The bits of Flags, each by its lowest; ST is below AU.
pub const AU: u32 = 0x0010;

pub const EB: u32 = 0x0020;

pub const DE: u32 = 0x0040;

pub const DP: u32 = 0x0080;

pub const AS: u32 = 0x0100;

// The judged fields of the 16 fixed bytes. Of Flags the bits 0 to 11: the four X bits are private.
// (32 bits wide, so that no gap in the struct is copied piecemeal.)
#[repr(C)]
#[derive(Clone, Copy, PartialEq, Eq, Debug, Default)]
pub struct SecurityFields {
    pub flags: u32,
    pub sender_id_size: Bytes,
    pub encryption_key_size: Bytes,
    pub signature_size: Bytes,
    pub sender_cert_size: Bytes,
    pub provider_info_size: Bytes,
}

// The five parts, without their padding, and the header's length with it.
#[repr(C)]
#[derive(Clone, Copy, PartialEq, Eq, Debug, Default)]
pub struct SecurityParts {
    pub sender_id: Part,
    pub encryption_key: Part,
    pub signature: Part,
    pub sender_cert: Part,
    pub provider_info: Part,
    pub length: Bytes,
}

// What reading finds in a SecurityHeader. The two SID bytes are those of the identity for ST 1, else 0.
#[repr(C)]
#[derive(Clone, Copy, PartialEq, Eq, Debug, Default)]
pub struct SecurityHeader {
    pub fields: SecurityFields,
    pub parts: SecurityParts,
    pub sid_revision: u8,
    pub sid_sub_authority_count: u8,
    pub provider_type: u32,
}

#[tactic(auto, unfolding(crate::specs::Security::all_empty))]
fn is_empty(f: SecurityFields) -> bool
    ensures { result ≡ all_empty f }
{
    f.sender_id_size.0 == 0
        && f.encryption_key_size.0 == 0
        && f.signature_size.0 == 0
        && f.sender_cert_size.0 == 0
        && f.provider_info_size.0 == 0
}

// S6
#[tactic(auto, unfolding(crate::specs::Security::identity_size))]
pub fn identity_size_fits(st: u32, size: Bytes) -> bool
    ensures { result ≡ identity_size st size.0 }
{
    if st == 0 {
        return size.0 == 0;
    }
    if st == 1 {
        if size.0 < 8 {
            return false;
        }
        if 68 < size.0 {
            return false;
        }
        return size.0 % 4 == 0;
    }
    size.0 == 16
}

// S7
#[tactic(auto, unfolding(crate::specs::Security::provider_size))]
fn provider_size_fits(de: u32, signature: Bytes, size: Bytes) -> bool
    ensures { result ≡ provider_size de signature.0 size.0 }
{
    if de == 1 {
        return size.0 == 0;
    }
    if 0 < signature.0 {
        if size.0 % 2 != 0 {
            return false;
        }
        return 8 <= size.0;
    }
    if size.0 == 0 {
        return true;
    }
    if size.0 % 2 != 0 {
        return false;
    }
    6 <= size.0
}

// 28
pub fn part_too_large(key: Bytes, signature: Bytes, certificate: Bytes) -> bool
    ensures { result ≡ part_too_large key.0 signature.0 certificate.0 }
{
    65535 < key.0 || 65535 < signature.0 || 65535 < certificate.0
}

// S2 to S7
#[tactic(auto, unfolding(crate::specs::Security::security_steps, crate::specs::Refusal::number_of, crate::specs::Refusal::number))]
pub fn security_steps(f: SecurityFields) -> Result<(), Cause>
    ensures { number_of result ≡ security_steps f }
{
    let flags = f.flags;
    if 2 < flags % AU {
        return Err(Cause::SenderKind);
    }
    if flags / AU % 2 != 0 {
        return Err(Cause::AuOrAs);
    }
    if flags / AS % 16 != 0 {
        return Err(Cause::AuOrAs);
    }
    if is_empty(f) {
        return Err(Cause::EmptyOrDpClear);
    }
    if flags / DP % 2 == 0 {
        return Err(Cause::EmptyOrDpClear);
    }
    if 65535 < f.sender_cert_size.0 {
        return Err(Cause::CertificateSize);
    }
    if !identity_size_fits(flags % AU, f.sender_id_size) {
        return Err(Cause::Identity);
    }
    if !provider_size_fits(flags / DE % 2, f.signature_size, f.provider_info_size) {
        return Err(Cause::Provider);
    }
    Ok(())
}

#[tactic(auto, unfolding(crate::specs::Security::cert_at, crate::specs::Security::key_at, crate::specs::Security::provider_at, crate::specs::Security::security_length, crate::specs::Security::signature_at, octets::specs::Padding::padded))]
fn largest_size(f: SecurityFields) -> Bytes
    ensures { LargestSize f result.0 }
{
    let sender = larger(f.sender_id_size, f.sender_cert_size);
    let message = larger(f.encryption_key_size, f.signature_size);
    larger(larger(sender, message), f.provider_info_size)
}

// The header's length, but at most one byte above the limit, so that no sum wraps.
#[tactic(auto, unfolding(crate::specs::Security::cert_at, crate::specs::Security::key_at, crate::specs::Security::provider_at, crate::specs::Security::security_length, crate::specs::Security::signature_at))]
pub fn security_length(f: SecurityFields) -> Bytes
    ensures { result.0 ≡ min (limit + 1) (security_length f) }
{
    if LIMIT < largest_size(f).0 {
        return Bytes(LIMIT + 1);
    }
    let identity = padded(f.sender_id_size).0;
    let key = padded(f.encryption_key_size).0;
    let signature = padded(f.signature_size).0;
    let certificate = padded(f.sender_cert_size).0;
    let provider = padded(f.provider_info_size).0;
    let length = 16 + identity + key + signature + certificate + provider;
    Bytes(length.min(LIMIT + 1))
}

// The k of S10: an identity of 8 + 4k bytes.
fn sub_authorities(size: Bytes) -> usize
    ensures { result ≡ (size.0 - 8) / 4 }
{
    size.0.saturating_sub(8) / 4
}

// S10
#[tactic(auto, unfolding(crate::specs::Security::identity_head))]
pub fn identity_head_fits(f: SecurityFields, identity: &[u8]) -> bool
    ensures { result ≡ identity_head f identity.now }
{
    let flags = f.flags;
    if flags % AU != 1 {
        return true;
    }
    if u8_at(identity, Bytes(0)) != 1 {
        return false;
    }
    u8_at(identity, Bytes(1)) as usize == sub_authorities(f.sender_id_size)
}

// The provider's name: the provider info behind its 4-byte type.
pub fn provider_name(info: &[u8]) -> &[u8]
    ensures { result.now ≡ drop 4 info.now }
{
    if info.len() < 4 {
        return &info[..0];
    }
    &info[4..]
}

// S11
#[tactic(auto, unfolding(crate::specs::Security::provider_text, octets::specs::Text::is_text, octets::specs::Text::last_only, octets::specs::Text::units))]
fn provider_text_fits(info: &[u8]) -> bool
    ensures { result ≡ provider_text info.now }
{
    if info.len() == 0 {
        return true;
    }
    if info.len() < 4 {
        return false;
    }
    is_text(&info[4..])
}

// S10 and S11
#[tactic(auto, unfolding(crate::specs::Security::security_contents, crate::specs::Refusal::number_of, crate::specs::Refusal::number))]
pub fn security_contents(f: SecurityFields, identity: &[u8], info: &[u8]) -> Result<(), Cause>
    ensures { number_of result ≡ security_contents f identity.now (provider_text info.now) }
{
    if !identity_head_fits(f, identity) {
        return Err(Cause::Identity);
    }
    if !provider_text_fits(info) {
        return Err(Cause::Provider);
    }
    Ok(())
}
