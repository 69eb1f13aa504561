// The properties of a message as one struct: what is not known, or absent, is a mark beside zeros.
ghost use Rattle.std.specs.Prelude.{◌≡◌};
ghost use Rattle.requests.specs.Carried.{section_properties};
ghost use Rattle.ugbariteyo.specs.Properties.{handling_answer, number_answer, privacy_answer, properties_answer, sender_answer};

use crate::request::UgbNumber;
use octets::count::{Bytes, Units};
use requests::carried::section_properties;
use requests::properties::{HandlingValues, Privacy, Properties, SenderValues};
use rules::section::Section;

// What no section carries.
#[repr(C)]
#[derive(Clone, Copy, Default)]
pub struct UgbHandling {
    pub known: bool,
    pub priority: u32,
    pub trace: u32,
    pub delivery: u32,
    pub auditing: u32,
    pub transaction: bool,
    pub direct_queue: bool,
    pub split_number: UgbNumber,
    pub provider_name_length: u32,
    pub time_to_queue: u32,
    pub time_to_live: u32,
}

// What only a SecurityHeader carries.
#[repr(C)]
#[derive(Clone, Copy, Default)]
pub struct UgbSender {
    pub known: bool,
    pub kind: u32,
    pub default_provider: bool,
    pub encryption: bool,
}

// A request's privacy, or a packet's level that no request's becomes.
#[repr(C)]
#[derive(Clone, Copy)]
pub struct UgbPrivacy {
    pub packet: bool,
    pub level: u32,
}

#[repr(C)]
#[derive(Clone, Copy)]
pub struct UgbProperties {
    pub handling: UgbHandling,
    pub sender: UgbSender,
    pub provider_type: UgbNumber,
    pub message_class: u32,
    pub acknowledge: u32,
    pub application_tag: u32,
    pub privacy_level: UgbPrivacy,
    pub hash_algorithm: u32,
    pub encryption_algorithm: u32,
    pub body_type: u32,
    pub message_size: Bytes,
    pub allocation_body_size: Bytes,
    pub title: Units,
    pub signature: Bytes,
}

impl From<Option<u32>> for UgbNumber {
    #[tactic(auto, unfolding(crate::specs::Properties::number_answer, crate::specs::Properties::no_number))]
    fn from(n: Option<u32>) -> Self
        ensures { result ≡ number_answer n }
    {
        match n {
            None => UgbNumber::default(),
            Some(number) => UgbNumber {
                given: true,
                number,
            },
        }
    }
}

impl From<Option<HandlingValues>> for UgbHandling {
    #[tactic(auto, unfolding(crate::specs::Properties::handling_answer, crate::specs::Properties::no_handling, crate::specs::Properties::no_number))]
    fn from(h: Option<HandlingValues>) -> Self
        ensures { result ≡ handling_answer h }
    {
        match h {
            None => UgbHandling::default(),
            Some(v) => UgbHandling {
                known: true,
                priority: v.priority,
                trace: v.trace,
                delivery: v.delivery,
                auditing: v.auditing,
                transaction: v.transaction,
                direct_queue: v.direct_queue,
                split_number: UgbNumber::from(v.split_number),
                provider_name_length: v.provider_name_length,
                time_to_queue: v.time_to_queue,
                time_to_live: v.time_to_live,
            },
        }
    }
}

impl From<Option<SenderValues>> for UgbSender {
    #[tactic(auto, unfolding(crate::specs::Properties::sender_answer, crate::specs::Properties::no_sender))]
    fn from(s: Option<SenderValues>) -> Self
        ensures { result ≡ sender_answer s }
    {
        match s {
            None => UgbSender::default(),
            Some(v) => UgbSender {
                known: true,
                kind: v.kind,
                default_provider: v.default_provider,
                encryption: v.encryption,
            },
        }
    }
}

impl From<Privacy> for UgbPrivacy {
    #[tactic(auto, unfolding(crate::specs::Properties::privacy_answer))]
    fn from(p: Privacy) -> Self
        ensures { result ≡ privacy_answer p }
    {
        match p {
            Privacy::Request(level) => UgbPrivacy {
                packet: false,
                level,
            },
            Privacy::Packet(level) => UgbPrivacy {
                packet: true,
                level,
            },
        }
    }
}

impl From<Properties> for UgbProperties {
    #[tactic(auto, unfolding(crate::specs::Properties::properties_answer))]
    fn from(p: Properties) -> Self
        ensures { result ≡ properties_answer p }
    {
        UgbProperties {
            handling: UgbHandling::from(p.handling),
            sender: UgbSender::from(p.sender),
            provider_type: UgbNumber::from(p.provider_type),
            message_class: p.message_class,
            acknowledge: p.acknowledge,
            application_tag: p.application_tag,
            privacy_level: UgbPrivacy::from(p.privacy_level),
            hash_algorithm: p.hash_algorithm,
            encryption_algorithm: p.encryption_algorithm,
            body_type: p.body_type,
            message_size: p.message_size,
            allocation_body_size: p.allocation_body_size,
            title: p.title,
            signature: p.signature,
        }
    }
}

// The properties of a section that was read; of a refused reading's, which is zero, all is zero.
pub fn ugb_properties_of(section: Section) -> UgbProperties
    ensures { result ≡ properties_answer (section_properties section) }
{
    UgbProperties::from(section_properties(section))
}
