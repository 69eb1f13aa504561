// The length of the section that a request would become, from the sizes of its parts.
ghost use Rattle.std.specs.Prelude.{◌≡◌, ◌+◌, length, ltb};
ghost use Rattle.rules.specs.Properties.{properties_length};
ghost use Rattle.rules.specs.Refusal.{limit};
ghost use Rattle.requests.specs.Request.{send_request};
ghost use Rattle.requests.specs.Section.{provider_info, section_length};

use octets::count::Bytes;
use requests::request::RequestGiven;
use requests::text::label_units;
use rules::properties::{PropertiesFields, section_end};
use rules::section::LIMIT;
use rules::security::{SecurityFields, security_length};

// Provider info is written only for a signature by another provider: its type, and its name with a null.
#[tactic(auto, unfolding(requests::specs::Section::provider_info))]
fn provider_info_size(given: &RequestGiven<'_>) -> Bytes
    ensures { result.0 ≡ length (provider_info given.now.request given.now.signature.now given.now.provider_name.now) }
{
    if given.signature.is_empty() {
        return Bytes(0);
    }
    if given.request.default_provider {
        return Bytes(0);
    }
    Bytes(6 + 2 * given.provider_name.len())
}

// Whether a MessagePropertiesHeader of these sizes, at `at`, ends above the limit.
fn ends_above(sizes: PropertiesFields, at: Bytes) -> bool
    ensures { result ≡ ltb limit (at.0 + properties_length sizes) }
{
    LIMIT < section_end(sizes, at).0
}

// Number 8 of step 6. A header's length depends on its sizes alone.
pub(crate) fn above_the_limit(given: &RequestGiven<'_>) -> bool
    ensures { result ≡ ltb limit (section_length (send_request given.now)) }
{
    let properties = PropertiesFields {
        label_length: label_units(given.title),
        message_size: given.body_size(),
        extension_size: Bytes(given.extension.len()),
        ..PropertiesFields::default()
    };
    if !given.security_first() {
        return ends_above(properties, Bytes(0));
    }
    let security = SecurityFields {
        flags: 0,
        sender_id_size: Bytes(given.sender_id.len()),
        encryption_key_size: Bytes(given.encryption_key.len()),
        signature_size: given.kept_bytes(),
        sender_cert_size: Bytes(given.sender_cert.len()),
        provider_info_size: provider_info_size(given),
    };
    let at = security_length(security);
    if LIMIT < at.0 {
        return true;
    }
    ends_above(properties, at)
}
