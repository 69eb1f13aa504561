// The verdicts, which go with an acceptance and refuse nothing: 01's two, decryption's as C-14 has it, and C-21's.
ghost use Rattle.std.specs.Prelude.{◌≡◌};
ghost use Rattle.rules.specs.Listed.{listed, privacy_levels, hash_algorithms, encryption_pairs, paired, retired_hashes};
ghost use Rattle.rules.specs.Summary.{authentication_fails, decryption_fails, retired, signature_present, verdicts_of};

use crate::properties::PropertiesFields;
use crate::security::{EB, SecurityFields};

#[derive(Clone, Copy, PartialEq, Eq, Debug)]
pub struct Verdicts {
    pub authentication_fails: bool,
    pub decryption_fails: bool,
    pub retired: bool,
}

fn is_privacy_level(level: u32) -> bool
    ensures { result ≡ listed privacy_levels level }
{
    match level {
        0..=1 => true,
        3 => true,
        5 => true,
        _ => false,
    }
}

fn is_hash_algorithm(algorithm: u32) -> bool
    ensures { result ≡ listed hash_algorithms algorithm }
{
    match algorithm {
        0x8001..=0x8004 => true,
        0x800C => true,
        0x800E => true,
        _ => false,
    }
}

// 003's table: a privacy level, and the encryption algorithms that it allows.
#[tactic(auto, unfolding(crate::specs::Listed::encryption_pairs, crate::specs::Listed::paired))]
fn is_paired(level: u32, algorithm: u32) -> bool
    ensures { result ≡ paired encryption_pairs level algorithm }
{
    match level {
        1 | 3 => (algorithm == 0x6602) | (algorithm == 0x6801), // RC2, RC4
        5 => (algorithm == 0x660E) | (algorithm == 0x660F) | (algorithm == 0x6610), // AES
        _ => false, // level 0 too
    }
}

// C-21: MD2, MD4, MD5.
pub fn is_retired_hash(algorithm: u32) -> bool
    ensures { result ≡ listed retired_hashes algorithm }
{
    match algorithm {
        0x8001..=0x8003 => true,
        _ => false,
    }
}

fn signature_present(security: SecurityFields) -> bool
    ensures { result ≡ signature_present security }
{
    0 < security.signature_size.0
}

#[tactic(auto, unfolding(crate::specs::Summary::authentication_fails))]
fn authentication_fails(security: SecurityFields, properties: PropertiesFields) -> bool
    ensures { result ≡ authentication_fails security properties }
{
    !is_privacy_level(properties.privacy_level)
        | (signature_present(security) & !is_hash_algorithm(properties.hash_algorithm))
}

#[tactic(auto, unfolding(crate::specs::Summary::decryption_fails))]
fn decryption_fails(security: SecurityFields, properties: PropertiesFields) -> bool
    ensures { result ≡ decryption_fails security properties }
{
    let encrypted = security.flags / EB % 2 == 1;
    encrypted & !is_paired(properties.privacy_level, properties.encryption_algorithm)
}

// C-21: 40-bit privacy, or a signature with a retired hash.
#[tactic(auto, unfolding(crate::specs::Summary::retired))]
fn retired(security: SecurityFields, properties: PropertiesFields) -> bool
    ensures { result ≡ retired security properties }
{
    (properties.privacy_level == 1)
        | (signature_present(security) & is_retired_hash(properties.hash_algorithm))
}

#[tactic(auto, unfolding(crate::specs::Summary::verdicts_of))]
pub fn verdicts_of(security: SecurityFields, properties: PropertiesFields) -> Verdicts
    ensures { result ≡ verdicts_of security properties }
{
    Verdicts {
        authentication_fails: authentication_fails(security, properties),
        decryption_fails: decryption_fails(security, properties),
        retired: retired(security, properties),
    }
}
