// The values of a section, out of the defaulted properties of a request.
ghost use Rattle.std.specs.Prelude.{◌≡◌, cond, ◌≤◌, ◌<◌};
ghost use Rattle.requests.specs.Section.{packet_level, packet_privacy, security_flags};
ghost use Rattle.sending.specs.Send.{sender_or, values_of};

use requests::properties::{Privacy, Properties, SenderValues};
use rules::section::CorrelationId;
use rules::security::{DE, DP, EB};
use writing::values::SectionValues;

// A packet holds a request's privacy 2 as 3.
#[tactic(auto, unfolding(requests::specs::Section::packet_privacy))]
fn packet_privacy(level: u32) -> u32
    ensures { result ≡ packet_privacy level }
{
    if level == 2 {
        return 3;
    }
    level
}

// A level that no request's privacy becomes is the packet's own.
#[tactic(auto, unfolding(requests::specs::Section::packet_level))]
fn packet_level(privacy: Privacy) -> u32
    ensures { result ≡ packet_level privacy }
{
    match privacy {
        Privacy::Request(level) => packet_privacy(level),
        Privacy::Packet(level) => level,
    }
}

// The bit of a mark that is set.
fn mark(set: bool, bit: u32) -> u32
    ensures value { result ≡ cond set bit 0 }
    ensures upper_bound { result ≤ bit }
{
    if set { bit } else { 0 }
}

// EB for encryption, DE for the default provider, and DP always.
#[tactic(auto, unfolding(requests::specs::Section::security_flags))]
fn security_flags(sender: SenderValues) -> u16
    requires { sender.kind ≤ 2 }
    ensures { result ≡ security_flags sender }
{
    (sender.kind + mark(sender.encryption, EB) + mark(sender.default_provider, DE) + DP) as u16
}

// What stands for a sender that is not known, which a request's never is, as the definition `sender_or` has it.
const NO_SENDER: SenderValues = SenderValues {
    kind: 0,
    default_provider: false,
    encryption: false,
};

#[tactic(auto, unfolding(crate::specs::Send::values_of))]
pub(crate) fn section_values(
    properties: Properties,
    first: bool,
    correlation_id: CorrelationId,
) -> SectionValues
    requires sender_bound { (sender_or properties.sender).kind ≤ 2 }
    requires acknowledge_bound { properties.acknowledge < 256 }
    requires message_class_bound { properties.message_class < 65536 }
    ensures { result ≡ values_of properties first correlation_id }
{
    SectionValues {
        security_first: first,
        security_flags: security_flags(properties.sender.unwrap_or(NO_SENDER)),
        flags: properties.acknowledge as u8,
        message_class: properties.message_class as u16,
        body_type: properties.body_type,
        application_tag: properties.application_tag,
        allocation_body_size: properties.allocation_body_size,
        privacy_level: packet_level(properties.privacy_level),
        hash_algorithm: properties.hash_algorithm,
        encryption_algorithm: properties.encryption_algorithm,
        correlation_id,
    }
}
