// A part of a section, written to the front of the output that it is lent.
ghost use Rattle.std.specs.Prelude.{◌≡◌, ◌≤◌, length};
ghost use Rattle.octets.specs.Padding.{padded};
ghost use Rattle.octets.specs.Over.{over};
ghost use Rattle.writing.specs.Writing.{padded_part};

use octets::count::Bytes;
use octets::over::{copy, zero};
use octets::padding::padding;

// The part and its padding, which is zero. Answers how many bytes that are.
#[tactic(auto, unfolding(octets::specs::Padding::padded))]
pub(crate) fn write_padded_part(part: &[u8], out: &mut [u8]) -> Bytes
    requires { padded 4 (length part.now) ≤ length out.old }
    ensures result_value { result.0 ≡ padded 4 (length part.now) }
    ensures out_after { out.new ≡ over (padded_part part.now) out.old }
{
    let size = part.len();
    let zeros = padding(Bytes(size)).0;
    copy(part, out);
    zero(&mut out[size..size + zeros]);
    Bytes(size + zeros)
}
