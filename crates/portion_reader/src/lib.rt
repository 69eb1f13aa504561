#![tactic(auto)]
// A section in portions, for C. In an archive of its own, where what it shares with the reader has this one caller and
// becomes part of it. The state is one struct to C, of which each call is lent the members.
mod counters;

ghost use Rattle.std.specs.Prelude.{◌≡◌, [], length};
ghost use Rattle.portions.specs.Finish.{finish_answer};
ghost use Rattle.portions.specs.Portion.{portion_answer, portion_state};
ghost use Rattle.portions.specs.State.{state_of, state_with};
ghost use Rattle.portion_reader.specs.Answer.{finish_counters, portion_counters, portion_refusal, state_answer, summarized_answer};
ghost use Rattle.portion_reader.specs.Security.{counted_only, security_counters, security_head, security_type};
ghost use Rattle.portion_reader.specs.Counters.{progress_of};

use crate::counters::Counters;
use octets::count::Bytes;
use portions::finish::{FinishCase, finish_case};
use portions::portion::{before_provider, gather_security, past_security, received_then};
use portions::properties::{hold_properties, label_length, past_label};
use portions::state::{State, start};
use rules::refusal::{Cause, Refusal};
use rules::section::Summary;
use ugbariteyo::zero::{no_refusal, no_summary};

#[repr(C)]
#[derive(Clone, Copy)]
pub struct UgbPortions {
    pub counters: Counters,
    pub head: [u8; 18],
    pub provider_type: [u8; 4],
    pub properties: [u8; 556],
}

#[repr(C)]
#[derive(Clone, Copy)]
pub struct UgbSummarized {
    pub refusal: Refusal,
    pub summary: Summary,
}

#[tactic(auto, unfolding(crate::specs::Answer::state_answer))]
#[unsafe(no_mangle)]
pub extern "C" fn ugb_start(security_first: bool) -> UgbPortions
    ensures { result ≡ state_answer (state_of security_first []) }
{
    let State {
        progress,
        head,
        provider_type,
        properties,
    } = start(security_first);
    UgbPortions {
        counters: Counters::from(progress),
        head,
        provider_type,
        properties,
    }
}

// What a portion brings of a SecurityHeader, and whether all of it lies before provider info, so that it is only counted.
// (The counters are written only where more than the count changes: most portions do not come so far.)
#[tactic(auto, unfolding(crate::specs::Security::counted_only, portions::specs::Fed::security_stays, crate::specs::Security::security_counters, crate::specs::Security::security_head, crate::specs::Security::security_type, crate::specs::Counters::progress_of,))]
fn before_properties(
    counters: &mut Counters,
    head: &mut [u8; 18],
    provider_type: &mut [u8; 4],
    bytes: &[u8],
) -> bool
    ensures value { result ≡ counted_only (progress_of counters.old) (length bytes.now) }
    ensures counters_after { counters.new ≡ security_counters counters.old head.old bytes.now }
    ensures head_after { head.new ≡ security_head (progress_of counters.old) head.old bytes.now }
    ensures provider_type_after { provider_type.new
        ≡ security_type (progress_of counters.old) head.old provider_type.old bytes.now }
{
    let received = Bytes(counters.received);
    if past_security(
        counters.security_first != 0,
        received,
        Bytes(counters.properties_at),
    ) {
        return false;
    }
    if before_provider(received, Bytes(counters.name_at), Bytes(bytes.len())) {
        return true;
    }
    let after = gather_security(counters.progress(), head, provider_type, bytes);
    *counters = Counters::from(after);
    false
}

#[tactic(auto, unfolding(crate::specs::Answer::portion_refusal, crate::specs::Answer::portion_counters, portions::specs::Portion::portion_answer, portions::specs::Portion::portion_state, portions::specs::Fed::counts_only, portions::specs::Fed::security_stays, portions::specs::Fed::fed, portions::specs::Fed::counted, portions::specs::Fed::gathered, portions::specs::Fed::progress_then, crate::specs::Counters::counters_of, crate::specs::Security::counted_only, crate::specs::Security::security_counters, crate::specs::Security::security_head, crate::specs::Security::security_type, crate::specs::Counters::progress_of, rules::specs::Refusal::number,))]
#[unsafe(no_mangle)]
pub extern "C" fn ugb_portion_positional(
    counters: &mut Counters,
    head: &mut [u8; 18],
    provider_type: &mut [u8; 4],
    properties: &mut [u8; 556],
    bytes: &[u8],
) -> Refusal
    ensures value { result ≡ portion_refusal (portion_answer (state_with (progress_of counters.old) head.old
        provider_type.old properties.old) bytes.now) }
    ensures counters_after { counters.new ≡ portion_counters counters.old (state_with (progress_of counters.old)
        head.old provider_type.old properties.old) bytes.now }
    ensures head_after { head.new ≡ (portion_state (state_with (progress_of counters.old) head.old
        provider_type.old properties.old) bytes.now).head }
    ensures provider_type_after { provider_type.new ≡ (portion_state (state_with (progress_of counters.old) head.old
        provider_type.old properties.old) bytes.now).provider_type }
    ensures properties_after { properties.new ≡ (portion_state (state_with (progress_of counters.old) head.old
        provider_type.old properties.old) bytes.now).properties }
{
    if counters.finished != 0 {
        return Refusal::at_start(Cause::AfterTheFinish);
    }
    let received = Bytes(counters.received);
    let after = received_then(received, Bytes(bytes.len())).0;
    if past_label(
        received,
        Bytes(counters.properties_at),
        label_length(properties),
    ) {
        counters.received = after;
        return no_refusal();
    }
    if before_properties(counters, head, provider_type, bytes) {
        counters.received = after;
        return no_refusal();
    }
    hold_properties(properties, Bytes(counters.properties_at), received, bytes);
    counters.received = after;
    no_refusal()
}

// Finished from now on.
#[tactic(auto, unfolding(crate::specs::Answer::finish_counters))]
fn close(counters: &mut Counters)
    ensures { counters.new ≡ finish_counters counters.old }
{
    if counters.finished == 0 {
        counters.finished = 1;
    }
}

#[tactic(auto, unfolding(crate::specs::Answer::summarized_answer, portions::specs::Finish::finish_case))]
#[unsafe(no_mangle)]
pub extern "C" fn ugb_finish_positional(
    counters: &mut Counters,
    head: &[u8; 18],
    provider_type: &[u8; 4],
    properties: &[u8; 556],
) -> UgbSummarized
    ensures value { result ≡ summarized_answer (finish_answer (state_with (progress_of counters.old) head.now
        provider_type.now properties.now)) }
    ensures counters_after { counters.new ≡ finish_counters counters.old }
{
    let progress = counters.progress();
    close(counters);
    // each arm returns, and so fills its answer in place: counted, 66 instructions fewer than with the `match` as the value
    match finish_case(progress, head, provider_type, properties) {
        FinishCase::WithSecurity(summary) => {
            return UgbSummarized {
                refusal: no_refusal(),
                summary,
            };
        }
        FinishCase::WithoutSecurity(summary) => {
            return UgbSummarized {
                refusal: no_refusal(),
                summary,
            };
        }
        FinishCase::Refused(refusal) => {
            return UgbSummarized {
                refusal,
                summary: no_summary(),
            };
        }
    }
}
