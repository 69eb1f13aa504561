// Bytes in hexadecimal.
ghost use Rattle.std.specs.Prelude.{◌≡◌, ◌/◌, ◌<◌, min, length, take};
ghost use Rattle.octets.specs.Over.{over};
ghost use Rattle.display.specs.Hex.{hex_digit, hex_of};

use octets::count::Bytes;

#[tactic(auto, unfolding(crate::specs::Hex::hex_digit))]
fn hex_digit(d: u8) -> u8
    requires { d < 16 }
    ensures { result ≡ hex_digit d }
{
    if d < 10 { b'0' + d } else { b'a' - 10 + d }
}

// The digits of as many bytes as there is room for, which it answers. (By index: of `chunks_exact_mut` a proof knows no
// element afterwards.)
pub fn put_hex(s: &[u8], out: &mut [u8]) -> Bytes
    ensures result_value { result.0 ≡ min (length s.now) (length out.old / 2) }
    ensures out_after { out.new ≡ over (hex_of (take result.0 s.now)) out.old }
{
    let n = s.len().min(out.len() / 2);
    for i in 0..n {
        out[2 * i] = hex_digit(s[i] / 16);
        out[2 * i + 1] = hex_digit(s[i] % 16);
    }
    Bytes(n)
}
