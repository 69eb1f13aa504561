// The steps of a send request, each test a function of what it looks at.
ghost use Rattle.std.specs.Prelude.{◌≡◌, not, ltb};
ghost use Rattle.rules.specs.Listed.{classes, listed};
ghost use Rattle.requests.specs.Defaults.{class};
ghost use Rattle.requests.specs.Request.{send_request};
ghost use Rattle.requests.specs.Steps.{algorithm_missing, allocation_fails, direct_privacy, hash_missing, identity_fails};
ghost use Rattle.requests.specs.Steps.{out_of_range, provider_fails, refused_by, request_steps, retired_request, split_fails, too_large};

use crate::length::above_the_limit;
use octets::count::Bytes;
use requests::request::{Request, RequestGiven};
use requests::text::name_fits;
use rules::class::is_listed;
use rules::properties::bad_allocation;
use rules::refusal::Cause;
use rules::security::{SecurityFields, identity_head_fits, identity_size_fits, part_too_large};
use rules::verdict::is_retired_hash;

// 1, of the values as they were given: a transaction changes delivery only later.
#[tactic(auto, unfolding(requests::specs::Steps::out_of_range))]
fn out_of_range(request: &Request) -> bool
    ensures { result ≡ out_of_range request.now }
{
    7 < request.priority()
        || 1 < request.trace.unwrap_or(0)
        || 1 < request.delivery.unwrap_or(0)
        || 15 < request.acknowledge.unwrap_or(0)
        || 3 < request.auditing.unwrap_or(0)
}

// 1: a class too large for its field is not listed.
fn class_unlisted(request: &Request) -> bool
    ensures { result ≡ not (listed classes (class request.now)) }
{
    let class = request.message_class.unwrap_or(0);
    65535 < class || !is_listed(class as u16)
}

// 2
#[tactic(auto, unfolding(requests::specs::Steps::direct_privacy))]
fn direct_privacy(request: &Request) -> bool
    ensures { result ≡ direct_privacy request.now }
{
    request.direct_queue && request.privacy_level.unwrap_or(0) != 0
}

#[tactic(auto, unfolding(requests::specs::Steps::algorithm_missing))]
fn algorithm_missing(request: &Request) -> bool
    ensures { result ≡ algorithm_missing request.now }
{
    request.privacy_level.is_some() && request.encryption_algorithm.is_none()
}

#[tactic(auto, unfolding(requests::specs::Steps::hash_missing))]
fn hash_missing(given: &RequestGiven<'_>) -> bool
    ensures { result ≡ hash_missing given.now.request given.now.signature.now }
{
    !given.signature.is_empty() && given.request.hash_algorithm.is_none()
}

// C-21: 40-bit privacy, or signature bytes, before they are cut, with a retired hash.
#[tactic(auto, unfolding(requests::specs::Steps::retired_request))]
fn retired(given: &RequestGiven<'_>) -> bool
    ensures { result ≡ retired_request given.now.request given.now.signature.now }
{
    let request = &given.request;
    let weak = request.privacy_level.unwrap_or(0) == 1;
    let signed = given.signature.len() != 0;
    weak | (signed & is_retired_hash(request.hash_algorithm.unwrap_or(0)))
}

// 3. S10 looks at the kind and at the identity's size alone.
#[tactic(auto, unfolding(requests::specs::Steps::identity_fails))]
fn identity_fails(given: &RequestGiven<'_>) -> bool
    ensures { result ≡ identity_fails given.now.request given.now.sender_id.now }
{
    let kind = given.request.sender_kind.unwrap_or(0);
    let size = Bytes(given.sender_id.len());
    if 2 < kind {
        return true;
    }
    if !identity_size_fits(kind, size) {
        return true;
    }
    let fields = SecurityFields {
        flags: kind,
        sender_id_size: size,
        ..SecurityFields::default()
    };
    !identity_head_fits(fields, given.sender_id)
}

// 4
#[tactic(auto, unfolding(requests::specs::Steps::provider_fails))]
fn provider_fails(given: &RequestGiven<'_>) -> bool
    ensures { result ≡ provider_fails given.now.request given.now.signature.now given.now.provider_name.now }
{
    let request = &given.request;
    if given.signature.is_empty() {
        return false;
    }
    if request.default_provider {
        return request.provider_type != Some(1);
    }
    !name_fits(given.provider_name)
}

// 5
#[tactic(auto, unfolding(requests::specs::Steps::split_fails))]
fn split_fails(given: &RequestGiven<'_>) -> bool
    ensures { result ≡ split_fails given.now.request given.now.signature.now }
{
    let size = given.signature.len();
    if size == 0 {
        return false;
    }
    if given.request.split_number.is_none() {
        return false;
    }
    let count = given.request.signature_count(Bytes(size)).0;
    count < 1 || size < count
}

// 6: key, signature as cut, certificate
#[tactic(auto, unfolding(requests::specs::Steps::too_large))]
fn too_large(given: &RequestGiven<'_>) -> bool
    ensures { result ≡ too_large given.now.request given.now.encryption_key.now
        given.now.signature.now given.now.sender_cert.now }
{
    part_too_large(
        Bytes(given.encryption_key.len()),
        given.kept_bytes(),
        Bytes(given.sender_cert.len()),
    )
}

// as P4
#[tactic(auto, unfolding(requests::specs::Steps::allocation_fails))]
fn allocation_fails(given: &RequestGiven<'_>) -> bool
    ensures { result ≡ allocation_fails given.now.request given.now.body.now }
{
    bad_allocation(given.body_size(), given.request.allocation())
}

// All steps but that of the output, in 01's order.
#[tactic(auto, unfolding(requests::specs::Steps::request_steps, requests::specs::Steps::steps, requests::specs::Steps::up_to24, requests::specs::Steps::from25, requests::specs::Steps::first_failure, requests::specs::Steps::refused_by, rules::specs::Refusal::number))]
pub(crate) fn request_steps(given: &RequestGiven<'_>) -> Result<(), Cause>
    ensures { refused_by result ≡ request_steps (send_request given.now) }
{
    // The three tests that take most are made before the first answer, so that each becomes part of this function:
    // behind many answers a call stays a call.
    let identity = identity_fails(given);
    let provider = provider_fails(given);
    let above = above_the_limit(given);
    let request = &given.request;
    if out_of_range(request) {
        Err(Cause::ValueOutOfRange)
    } else if class_unlisted(request) {
        Err(Cause::Class)
    } else if 2 < request.privacy_level.unwrap_or(0) {
        Err(Cause::Privacy)
    } else if direct_privacy(request) {
        Err(Cause::PrivacyOnADirectQueue)
    } else if algorithm_missing(request) {
        Err(Cause::AlgorithmAbsent)
    } else if hash_missing(given) {
        Err(Cause::HashAbsent)
    } else if retired(given) {
        Err(Cause::Retired)
    } else if identity {
        Err(Cause::RequestIdentity)
    } else if provider {
        Err(Cause::RequestProvider)
    } else if split_fails(given) {
        Err(Cause::SplitNumber)
    } else if too_large(given) {
        Err(Cause::PartTooLarge)
    } else if allocation_fails(given) {
        Err(Cause::Allocation)
    } else if above {
        Err(Cause::AboveTheLimit)
    } else {
        Ok(())
    }
}
