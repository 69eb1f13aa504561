// The steps that reading and writing share: type, pair and value. Each list answers the cause of the first that fails.
ghost use Rattle.std.specs.Prelude.{◌≡◌};
ghost use Rattle.rules.specs.Refusal.{number_of};
ghost use Rattle.queues.specs.Steps.{fixed_size, format_steps, is_string, string_step, text_steps};

use crate::format::QueueFormat;
use octets::count::{Bytes, Units};
use octets::text::is_text;
use rules::refusal::Cause;

// 30, 31
#[tactic(auto, unfolding(crate::specs::Steps::format_steps, rules::specs::Refusal::number_of, rules::specs::Refusal::number))]
pub(crate) fn format_steps(format: QueueFormat) -> Result<(), Cause>
    ensures { number_of result ≡ format_steps format }
{
    if QueueFormat::TYPE_SUBQUEUE < format.kind {
        return Err(Cause::QueueType);
    }
    if !format.pair_passes() {
        return Err(Cause::QueueSuffix);
    }
    Ok(())
}

// The size of what stands before the string, or is the whole value.
#[tactic(auto, unfolding(crate::specs::Steps::fixed_size, rules::specs::Listed::listed))]
pub(crate) fn fixed_size(kind: u8) -> Bytes
    ensures { result.0 ≡ fixed_size kind }
{
    match kind {
        QueueFormat::TYPE_PUBLIC
        | QueueFormat::TYPE_MACHINE
        | QueueFormat::TYPE_CONNECTOR
        | QueueFormat::TYPE_DL => Bytes(16),
        QueueFormat::TYPE_PRIVATE => Bytes(20),
        QueueFormat::TYPE_MULTICAST => Bytes(8),
        _ => Bytes(0),
    }
}

// Whether the bytes are a string of `least` to 1,024 units. The counts first, so that no long input is gone through.
fn is_string(text: &[u8], least: Units) -> bool
    ensures { result ≡ is_string least.0 text.now }
{
    if text.len() < least.bytes().0 {
        return false;
    }
    if Units(1024).bytes().0 < text.len() {
        return false;
    }
    is_text(text)
}

#[tactic(auto, unfolding(crate::specs::Steps::string_step, rules::specs::Refusal::number_of, rules::specs::Refusal::number))]
fn string_step(text: &[u8], least: Units) -> Result<(), Cause>
    ensures { number_of result ≡ string_step least.0 text.now }
{
    if !is_string(text, least) {
        return Err(Cause::QueueString);
    }
    Ok(())
}

// 32, 33, for a value of `fixed_size` bytes and the text after them.
#[tactic(auto, unfolding(crate::specs::Steps::text_steps, rules::specs::Listed::listed, rules::specs::Refusal::number_of, rules::specs::Refusal::number))]
pub(crate) fn text_steps(kind: u8, text: &[u8]) -> Result<(), Cause>
    ensures { number_of result ≡ text_steps kind text.now }
{
    match kind {
        QueueFormat::TYPE_DIRECT | QueueFormat::TYPE_SUBQUEUE => string_step(text, Units(2)),
        QueueFormat::TYPE_DL if text.len() < 2 => Err(Cause::QueueValue),
        QueueFormat::TYPE_DL => string_step(text, Units(1)),
        _ if text.is_empty() => Ok(()),
        _ => Err(Cause::QueueValue),
    }
}
