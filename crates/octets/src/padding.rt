// Padding to a multiple of 4.
ghost use Rattle.std.specs.Prelude.{◌≡◌};
ghost use Rattle.octets.specs.Padding.{padding};

use crate::count::Bytes;

// How many bytes pad `size` to a multiple of 4: none where it is one.
pub fn padding(size: Bytes) -> Bytes
    ensures { result.0 ≡ padding 4 size.0 }
{
    let n = size.0;
    Bytes((4 - n % 4) % 4)
}
