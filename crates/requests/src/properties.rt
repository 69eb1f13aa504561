// The properties of a message, one type for everyone: made from a request, each absent value with its default, or from
// a section that was read. They stand in the groups in which a section carries them or does not; what it does not carry
// is not known. Of title and signature they say how much there is: where it lies is no property of the message.
use octets::count::{Bytes, Units};
use rules::refusal::Refusal;

// What no section carries.
#[derive(Clone, Copy)]
pub struct HandlingValues {
    pub priority: u32,
    pub trace: u32,
    pub delivery: u32,
    pub auditing: u32,
    pub transaction: bool,
    pub direct_queue: bool,
    pub split_number: Option<u32>,
    pub provider_name_length: u32,
    // in seconds
    pub time_to_queue: u32,
    pub time_to_live: u32,
}

// What only a SecurityHeader carries.
#[derive(Clone, Copy)]
pub struct SenderValues {
    pub kind: u32,
    pub default_provider: bool,
    pub encryption: bool,
}

// A request's privacy, 0, 1 or 2, which a packet holds as 0, 1 or 3, or a packet's level that no request's becomes.
// (Both are levels: neither case is an error or an absence.)
#[derive(Clone, Copy)]
pub enum Privacy {
    Request(u32),
    Packet(u32),
}

#[derive(Clone, Copy)]
pub struct Properties {
    pub handling: Option<HandlingValues>,
    pub sender: Option<SenderValues>,
    pub provider_type: Option<u32>,
    pub message_class: u32,
    pub acknowledge: u32,
    pub application_tag: u32,
    pub privacy_level: Privacy,
    pub hash_algorithm: u32,
    pub encryption_algorithm: u32,
    pub body_type: u32,
    pub message_size: Bytes,
    pub allocation_body_size: Bytes,
    // how many units of the title are kept, without the null
    pub title: Units,
    // how many bytes of the signature are kept, the last of those given
    pub signature: Bytes,
}
