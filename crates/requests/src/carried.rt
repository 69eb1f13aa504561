// The properties of a section that was read: what it does not carry is not known.
ghost use Rattle.std.specs.Prelude.{◌≡◌, ◌-◌};
ghost use Rattle.requests.specs.Carried.{request_privacy, section_properties, section_provider_type, section_sender};

use crate::properties::{Privacy, Properties, SenderValues};
use octets::count::{Bytes, Units};
use rules::section::Section;
use rules::security::{AU, DE, EB, SecurityFields};

// Only a SecurityHeader carries the sender. (ST is below AU.)
#[tactic(auto, unfolding(crate::specs::Carried::section_sender))]
fn sender_of(security_first: bool, fields: SecurityFields) -> Option<SenderValues>
    ensures { result ≡ section_sender security_first fields }
{
    let flags = fields.flags;
    security_first.then_some(SenderValues {
        kind: flags % AU,
        default_provider: flags / DE % 2 == 1,
        encryption: flags / EB % 2 == 1,
    })
}

// Only provider info carries the provider's type.
#[tactic(auto, unfolding(crate::specs::Carried::section_provider_type))]
fn provider_type_of(info: Bytes, provider_type: u32) -> Option<u32>
    ensures { result ≡ section_provider_type info provider_type }
{
    (info.0 != 0).then_some(provider_type)
}

// The request's privacy that becomes this level in a packet, where there is one.
#[tactic(auto, unfolding(crate::specs::Carried::request_privacy))]
fn request_privacy(level: u32) -> Privacy
    ensures { result ≡ request_privacy level }
{
    match level {
        0..=1 => Privacy::Request(level),
        3 => Privacy::Request(2),
        _ => Privacy::Packet(level),
    }
}

#[tactic(auto, unfolding(crate::specs::Carried::section_properties))]
pub fn section_properties(section: Section) -> Properties
    ensures { result ≡ section_properties section }
{
    let summary = section.summary;
    let security = summary.security;
    let fields = security.fields;
    let properties = summary.properties;
    Properties {
        handling: None,
        sender: sender_of(summary.security_first, fields),
        provider_type: provider_type_of(fields.provider_info_size, security.provider_type),
        message_class: properties.message_class as u32,
        acknowledge: properties.flags as u32,
        application_tag: section.application_tag,
        privacy_level: request_privacy(properties.privacy_level),
        hash_algorithm: properties.hash_algorithm,
        encryption_algorithm: properties.encryption_algorithm,
        body_type: properties.body_type,
        message_size: properties.message_size,
        allocation_body_size: properties.allocation_body_size,
        // a label's units without its null
        title: Units(properties.label_length.0.saturating_sub(1)),
        signature: fields.signature_size,
    }
}
