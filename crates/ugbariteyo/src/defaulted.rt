// The defaulted properties of a send request, with C's parameters: a struct that holds a slice does not cross.
ghost use Rattle.std.specs.Prelude.{◌≡◌};
ghost use Rattle.requests.specs.Request.{lent_request};
ghost use Rattle.ugbariteyo.specs.Defaulted.{defaulted_answer};
ghost use Rattle.ugbariteyo.specs.Request.{request_of};

use crate::properties::{UgbProperties, ugb_properties_of};
use crate::request::UgbRequest;
use crate::zero::{no_refusal, no_section};
use defaulting::defaulted::defaulted;
use requests::request::{Request, RequestGiven};
use rules::refusal::Refusal;
use rules::section::CorrelationId;

#[repr(C)]
#[derive(Clone, Copy)]
pub struct UgbDefaulted {
    pub refusal: Refusal,
    pub properties: UgbProperties,
    pub correlation_id: CorrelationId,
}

#[tactic(auto, unfolding(crate::specs::Defaulted::defaulted_answer, crate::specs::Defaulted::answer_with))]
pub fn ugb_defaulted_positional(
    request: UgbRequest,
    title: &[u16],
    sender_id: &[u8],
    encryption_key: &[u8],
    signature: &[u8],
    sender_cert: &[u8],
    provider_name: &[u16],
    extension: &[u8],
    body: &[u8],
) -> UgbDefaulted
    ensures { result ≡ defaulted_answer (lent_request (request_of request) title sender_id encryption_key
        signature sender_cert provider_name extension body) }
{
    let request = Request::from(request);
    let given = RequestGiven {
        request,
        title,
        sender_id,
        encryption_key,
        signature,
        sender_cert,
        provider_name,
        extension,
        body,
    };
    match defaulted(&given) {
        Err(refusal) => UgbDefaulted {
            refusal,
            properties: ugb_properties_of(no_section()),
            correlation_id: [0u8; 20],
        },
        Ok(p) => UgbDefaulted {
            refusal: no_refusal(),
            properties: UgbProperties::from(p),
            correlation_id: request.correlation_id(),
        },
    }
}
