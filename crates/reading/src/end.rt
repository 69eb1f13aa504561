// The steps on where a header or a section ends.
ghost use Rattle.std.specs.Prelude.{◌≡◌, cond, ltb};
ghost use Rattle.rules.specs.Refusal.{limit, number_of};

use octets::count::Bytes;
use rules::refusal::Cause;
use rules::section::LIMIT;

// S8 and S9, P5 and P6: of what ends at `end`, in n bytes.
#[inline(always)]
#[tactic(auto, unfolding(rules::specs::Refusal::number_of, rules::specs::Refusal::number))]
pub(crate) fn end_steps(n: Bytes, end: Bytes) -> Result<(), Cause>
    ensures { number_of result ≡ cond (ltb limit end.0) 8 (cond (ltb n.0 end.0) 1 0) }
{
    if LIMIT < end.0 {
        return Err(Cause::AboveTheLimit);
    }
    if n.0 < end.0 {
        return Err(Cause::InputShort);
    }
    Ok(())
}
