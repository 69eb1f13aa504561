// The one function that makes the defaulted properties of a send request.
ghost use Rattle.std.specs.Prelude.{◌≡◌};
ghost use Rattle.requests.specs.Defaults.{handling_of, properties, sender_of};
ghost use Rattle.requests.specs.Request.{send_request};
ghost use Rattle.requests.specs.Steps.{defaulted};

use crate::steps::request_steps;
use requests::properties::{HandlingValues, Privacy, Properties, SenderValues};
use requests::request::{Request, RequestGiven};
use requests::text::kept_units;
use rules::refusal::Refusal;

#[tactic(auto, unfolding(requests::specs::Defaults::handling_of))]
fn handling_of(request: &Request) -> Option<HandlingValues>
    ensures { result ≡ handling_of request.now }
{
    Some(HandlingValues {
        priority: request.priority(),
        trace: request.trace.unwrap_or(0),
        delivery: request.delivery(),
        auditing: request.auditing.unwrap_or(0),
        transaction: request.transaction,
        direct_queue: request.direct_queue,
        split_number: request.split_number,
        provider_name_length: request.provider_name_length,
        time_to_queue: request.time_to_queue(),
        time_to_live: request.time_to_live(),
    })
}

#[tactic(auto, unfolding(requests::specs::Defaults::sender_of))]
fn sender_of(given: &RequestGiven<'_>) -> Option<SenderValues>
    ensures { result ≡ sender_of given.now.request given.now.encryption_key.now }
{
    Some(SenderValues {
        kind: given.request.sender_kind.unwrap_or(0),
        default_provider: given.request.default_provider,
        encryption: given.encryption(),
    })
}

#[tactic(auto, unfolding(requests::specs::Defaults::properties_of))]
fn properties_of(given: &RequestGiven<'_>) -> Properties
    ensures { result ≡ properties (send_request given.now) }
{
    let request = &given.request;
    Properties {
        handling: handling_of(request),
        sender: sender_of(given),
        provider_type: Some(request.provider_type.unwrap_or(0)),
        message_class: request.message_class.unwrap_or(0),
        acknowledge: request.acknowledge.unwrap_or(0),
        application_tag: request.application_tag.unwrap_or(0),
        privacy_level: Privacy::Request(request.privacy_level.unwrap_or(0)),
        hash_algorithm: request.hash_algorithm.unwrap_or(0),
        encryption_algorithm: request.encryption_algorithm.unwrap_or(0),
        body_type: request.body_type.unwrap_or(0),
        message_size: given.body_size(),
        allocation_body_size: request.allocation(),
        title: kept_units(given.title),
        signature: given.kept_bytes(),
    }
}

// The defaulted properties, or the refusal of the first step that fails. The output's step is left to the sender.
#[tactic(auto, unfolding(requests::specs::Steps::defaulted, requests::specs::Steps::answer_of, requests::specs::Steps::refused_by))]
pub fn defaulted(given: &RequestGiven<'_>) -> Result<Properties, Refusal>
    ensures { result ≡ defaulted (send_request given.now) }
{
    match request_steps(given) {
        Err(cause) => Err(Refusal::at_start(cause)),
        Ok(()) => Ok(properties_of(given)),
    }
}
