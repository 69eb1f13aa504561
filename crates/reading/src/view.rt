// A part's bytes, as a part of the caller's slice.
ghost use Rattle.std.specs.Prelude.{◌≡◌};
ghost use Rattle.rules.specs.Summary.{part_of};

use octets::part::within;
use rules::section::Part;

// The bytes of a part of the section that was read from `s`; none where `s` does not hold them all.
pub fn part_of(s: &[u8], part: Part) -> &[u8]
    ensures { result.now ≡ part_of s.now part }
{
    within(s, part.start, part.length)
}
