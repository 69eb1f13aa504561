// Numbers of a header whose fixed bytes are there. (A function for each width, as in `octets::number`, whose own would leave
// the test for missing bytes in the machine code.)
ghost use Rattle.std.specs.Prelude.{◌≡◌, ◌+◌, ◌≤◌, length};
ghost use Rattle.octets.specs.Number.{le};

use octets::count::Bytes;
use octets::number::{u16_of, u32_of};

#[tactic(auto, unfolding(octets::specs::Number::le))]
pub(crate) fn u16_in(h: &[u8], at: Bytes) -> u16
    requires { at.0 + 2 ≤ length h.now }
    ensures { result ≡ le 2 h.now at.0 }
{
    let i = at.0;
    u16_of(h[i], h[i + 1])
}

#[tactic(auto, unfolding(octets::specs::Number::le))]
pub(crate) fn u32_in(h: &[u8], at: Bytes) -> u32
    requires { at.0 + 4 ≤ length h.now }
    ensures { result ≡ le 4 h.now at.0 }
{
    let i = at.0;
    u32_of(h[i], h[i + 1], h[i + 2], h[i + 3])
}
