// A send request: its numbers and marks, and its parts.
use octets::count::Bytes;
use rules::section::CorrelationId;

// The numbers are as wide as 002's widest, so that a number too large for its field is refused and not cut.
#[derive(Clone, Copy)]
pub struct Request {
    pub priority: Option<u32>,
    pub trace: Option<u32>,
    pub delivery: Option<u32>,
    pub auditing: Option<u32>,
    pub message_class: Option<u32>,
    pub acknowledge: Option<u32>,
    pub application_tag: Option<u32>,
    pub privacy_level: Option<u32>,
    pub hash_algorithm: Option<u32>,
    pub encryption_algorithm: Option<u32>,
    pub body_type: Option<u32>,
    pub sender_kind: Option<u32>,
    pub provider_type: Option<u32>,
    // the two numbers of step 5: pulAuthProvNameLenProp, which 01 calls the split number, and ulProvNameLen
    pub split_number: Option<u32>,
    pub provider_name_length: u32,
    // in seconds; a request always gives both
    pub time_to_queue: u32,
    pub time_to_live: u32,
    pub correlation_id: Option<CorrelationId>,
    // how much a body that is given allocates; its bytes are lent beside it, as C and every theorem on a `SendRequest` has them
    pub body: Option<Bytes>,
    pub transaction: bool,
    pub direct_queue: bool,
    pub default_provider: bool,
    pub encryption: bool,
}

// A request with its parts, an absent one as an empty slice.
#[derive(Clone, Copy)]
pub struct RequestGiven<'a> {
    pub request: Request,
    pub title: &'a [u16],
    pub sender_id: &'a [u8],
    pub encryption_key: &'a [u8],
    pub signature: &'a [u8],
    pub sender_cert: &'a [u8],
    pub provider_name: &'a [u16],
    pub extension: &'a [u8],
    pub body: &'a [u8],
}
