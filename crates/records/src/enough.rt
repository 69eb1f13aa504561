// When to read on: which bytes decide a file's next record.
ghost use Rattle.std.specs.Prelude.{◌≡◌, true};
ghost use Rattle.records.specs.Enough.{Decides, is_enough};

use crate::head::{HEAD, LONGEST};
use octets::count::Bytes;

// No record is longer.
const LARGEST: usize = HEAD + LONGEST;

// Whether the `held` bytes from a record's first one decide it; `is_over` where the file ends with them.
#[tactic(auto, using(crate::proofs::Laws::Enough::enough), unfolding(crate::specs::Enough::is_enough))]
pub fn is_enough(held: Bytes, is_over: bool) -> bool
    ensures value { result ≡ is_enough held.0 is_over }
    ensures decides { result ≡ true → Decides held.0 is_over }
{
    is_over || LARGEST <= held.0
}
