// Text of 16-bit units as a person reads it: printable ASCII as it is, any other unit as an escape.
ghost use Rattle.std.specs.Prelude.{◌≡◌, ◌+◌, ◌*◌, ◌≤◌, ◌/◌, min, length, take};
ghost use Rattle.octets.specs.Over.{over, over_at};
ghost use Rattle.octets.specs.Text.{units};
ghost use Rattle.display.specs.Shown.{is_plain, shown, shown_unit};

use crate::hex::put_hex;
use octets::count::Bytes;
use octets::number::u16_at;

const QUOTE: u16 = 34;

const BACKSLASH: u16 = 92;

#[tactic(auto, unfolding(crate::specs::Shown::is_plain))]
fn is_plain(u: u16) -> bool
    ensures { result ≡ is_plain u }
{
    matches!(u, 32..=126) && u != QUOTE && u != BACKSLASH
}

// Answers where the next unit begins. (On the rest of the output the caller would carry that and how much is written.)
fn put_unit(u: u16, out: &mut [u8], at: Bytes) -> Bytes
    requires { at.0 + 6 ≤ length out.old }
    ensures result_value { result.0 ≡ at.0 + length (shown_unit u) }
    ensures result_bound { result.0 ≤ at.0 + 6 }
    ensures out_after { out.new ≡ over_at at.0 (shown_unit u) out.old }
{
    let i = at.0;
    if is_plain(u) {
        out[i] = u as u8;
        return Bytes(i + 1);
    }
    out[i] = b'\\';
    out[i + 1] = b'u';
    let bytes = [(u / 256) as u8, (u % 256) as u8];
    put_hex(&bytes, &mut out[i + 2..]);
    Bytes(i + 6)
}

// How much of a text is shown, and in how many bytes.
#[derive(Clone, Copy)]
pub struct Shown {
    pub taken: Bytes,
    pub length: Bytes,
}

// As many units as there is room for, however each is shown.
pub fn put_shown(s: &[u8], out: &mut [u8]) -> Shown
    ensures taken_value { result.taken.0 ≡ 2 * min (length s.now / 2) (length out.old / 6) }
    ensures length_value { result.length.0 ≡ length (shown (units (take result.taken.0 s.now))) }
    ensures out_after { out.new ≡ over (shown (units (take result.taken.0 s.now))) out.old }
{
    // (By index, as `put_hex`.) A unit is two bytes of the text and at most six of the output: three for a byte.
    let n = s.len().min(out.len() / 3) / 2;
    let mut at = Bytes(0);
    for i in 0..n {
        at = put_unit(u16_at(s, Bytes(2 * i)), out, at);
    }
    Shown {
        taken: Bytes(2 * n),
        length: at,
    }
}
