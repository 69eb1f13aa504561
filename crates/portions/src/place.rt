// Where the bytes lie that are held or judged, once the SecurityHeader's fixed bytes have come.
ghost use Rattle.std.specs.Prelude.{◌≡◌, replicate};
ghost use Rattle.portions.specs.State.{places_of};

use octets::count::Bytes;
use reading::security::security_fields;
use rules::place::provider_at;
use rules::security::security_length;

// Where the provider name begins, behind its 4-byte type, how long it is, and where the MessagePropertiesHeader begins.
// What lies further than one byte above the limit is taken to lie there.
#[repr(C)]
#[derive(Clone, Copy, Default)]
pub struct Places {
    pub name_at: Bytes,
    pub name_size: Bytes,
    pub properties_at: Bytes,
}

// Before any byte has come: behind the fixed bytes, where a SecurityHeader stands first.
#[tactic(auto, unfolding(crate::specs::State::places_of, crate::specs::State::places_in, reading::specs::Fields::security_read, octets::specs::Part::whole, rules::specs::Security::security_fields, octets::specs::Number::le, rules::specs::Security::security_length, rules::specs::Security::provider_at, rules::specs::Security::cert_at, rules::specs::Security::signature_at, rules::specs::Security::key_at, octets::specs::Padding::padded, octets::specs::Padding::padding,))]
pub(crate) fn places_at_start(security_first: bool) -> Places
    ensures { result ≡ places_of security_first (replicate 18 0) }
{
    if security_first {
        return Places {
            name_at: Bytes(20),
            properties_at: Bytes(16),
            ..Places::default()
        };
    }
    Places::default()
}

#[tactic(auto, unfolding(crate::specs::State::places_of, crate::specs::State::places_in))]
pub(crate) fn places_of(security_first: bool, head: &[u8]) -> Places
    ensures { result ≡ places_of security_first head.now }
{
    if !security_first {
        return Places::default();
    }
    let f = security_fields(head);
    let name_at = Bytes(provider_at(f).0 + 4);
    let properties_at = security_length(f);
    let size = f.provider_info_size.0.saturating_sub(4);
    let room = properties_at.0.saturating_sub(name_at.0);
    Places {
        name_at,
        name_size: Bytes(size.min(room)),
        properties_at,
    }
}
