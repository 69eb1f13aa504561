// A send request as C gives it: what may be absent is a mark beside a number.
ghost use Rattle.std.specs.Prelude.{◌≡◌};
ghost use Rattle.std.specs.Bool.{then_some};
ghost use Rattle.ugbariteyo.specs.Request.{number_of, request_of};

use octets::count::Bytes;
use requests::request::Request;
use rules::section::CorrelationId;

// A number that may be absent, so that absent and 0 stay apart.
#[repr(C)]
#[derive(Clone, Copy, Default)]
pub struct UgbNumber {
    pub given: bool,
    pub number: u32,
}

#[repr(C)]
#[derive(Clone, Copy)]
pub struct UgbRequest {
    pub priority: UgbNumber,
    pub trace: UgbNumber,
    pub delivery: UgbNumber,
    pub auditing: UgbNumber,
    pub message_class: UgbNumber,
    pub acknowledge: UgbNumber,
    pub application_tag: UgbNumber,
    pub privacy_level: UgbNumber,
    pub hash_algorithm: UgbNumber,
    pub encryption_algorithm: UgbNumber,
    pub body_type: UgbNumber,
    pub sender_kind: UgbNumber,
    pub provider_type: UgbNumber,
    pub split_number: UgbNumber,
    pub provider_name_length: u32,
    pub time_to_queue: u32,
    pub time_to_live: u32,
    pub correlation_given: bool,
    pub correlation_id: CorrelationId,
    pub body_given: bool,
    pub allocation_body_size: Bytes,
    pub transaction: bool,
    pub direct_queue: bool,
    pub default_provider: bool,
    pub encryption: bool,
}

impl From<UgbNumber> for Option<u32> {
    fn from(n: UgbNumber) -> Self
        ensures { result ≡ number_of n }
    {
        n.given.then_some(n.number)
    }
}

// Cleared where it is not given, and no `then_some`, whose branch costs `ugb_defaulted_positional` 6 % of its instructions.
fn correlation_of(given: bool, id: CorrelationId) -> Option<CorrelationId>
    ensures { result ≡ then_some given id }
{
    let mut found = Some(id);
    if !given {
        found = None;
    }
    found
}

impl From<UgbRequest> for Request {
    #[tactic(auto, unfolding(crate::specs::Request::request_of))]
    fn from(q: UgbRequest) -> Self
        ensures { result ≡ request_of q }
    {
        Request {
            priority: Option::from(q.priority),
            trace: Option::from(q.trace),
            delivery: Option::from(q.delivery),
            auditing: Option::from(q.auditing),
            message_class: Option::from(q.message_class),
            acknowledge: Option::from(q.acknowledge),
            application_tag: Option::from(q.application_tag),
            privacy_level: Option::from(q.privacy_level),
            hash_algorithm: Option::from(q.hash_algorithm),
            encryption_algorithm: Option::from(q.encryption_algorithm),
            body_type: Option::from(q.body_type),
            sender_kind: Option::from(q.sender_kind),
            provider_type: Option::from(q.provider_type),
            split_number: Option::from(q.split_number),
            provider_name_length: q.provider_name_length,
            time_to_queue: q.time_to_queue,
            time_to_live: q.time_to_live,
            correlation_id: correlation_of(q.correlation_given, q.correlation_id),
            body: q.body_given.then_some(q.allocation_body_size),
            transaction: q.transaction,
            direct_queue: q.direct_queue,
            default_provider: q.default_provider,
            encryption: q.encryption,
        }
    }
}
