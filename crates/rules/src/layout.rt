// What layouts are made of.
ghost use Rattle.std.specs.Prelude.{◌≡◌, ◌+◌, ◌<◌, ◌^◌, max};
ghost use Rattle.octets.specs.Padding.{padded};
ghost use Rattle.rules.specs.Security.{part};

use crate::section::Part;
use octets::count::Bytes;
use octets::padding::padding;

// A size with its padding.
#[tactic(auto, unfolding(octets::specs::Padding::padded, octets::specs::Padding::padding))]
pub(crate) fn padded(size: Bytes) -> Bytes
    requires { size.0 < 2 ^ 32 }
    ensures result_value { result.0 ≡ padded 4 size.0 }
    ensures result_bound { result.0 < size.0 + 4 }
{
    Bytes(size.0 + padding(size).0)
}

pub(crate) fn larger(a: Bytes, b: Bytes) -> Bytes
    ensures { result.0 ≡ max a.0 b.0 }
{
    Bytes(a.0.max(b.0))
}

pub fn part(start: Bytes, length: Bytes) -> Part
    ensures { result ≡ part start.0 length.0 }
{
    Part { start, length }
}
