// Little-endian numbers: of single bytes, as bytes, and in a slice. In a slice a byte past the end counts as 0, so that
// every offset has an answer. (A function for each width: a trait of three one-line impls would be no plainer.)
ghost use Rattle.std.specs.Prelude.{◌≡◌, [], ◌∷◌, get_or};
ghost use Rattle.octets.specs.Number.{le, to_le};

use crate::count::Bytes;
use crate::over::copy;

pub fn u16_of(a: u8, b: u8) -> u16
    ensures { result ≡ le 2 (a ∷ b ∷ []) 0 }
{
    u16::from_le_bytes([a, b])
}

pub fn u32_of(a: u8, b: u8, c: u8, d: u8) -> u32
    ensures { result ≡ le 4 (a ∷ b ∷ c ∷ d ∷ []) 0 }
{
    u32::from_le_bytes([a, b, c, d])
}

pub fn u16_bytes(n: u16) -> [u8; 2]
    ensures { result ≡ to_le 2 n }
{
    u16::to_le_bytes(n)
}

pub fn u32_bytes(n: u32) -> [u8; 4]
    ensures { result ≡ to_le 4 n }
{
    u32::to_le_bytes(n)
}

pub fn u64_bytes(n: u64) -> [u8; 8]
    ensures { result ≡ to_le 8 n }
{
    u64::to_le_bytes(n)
}

pub fn u8_at(s: &[u8], at: Bytes) -> u8
    ensures { result ≡ get_or s.now at.0 0 }
{
    s.get(at.0).copied().unwrap_or(0)
}

// The N bytes at an offset.
fn bytes_at<const N: usize>(s: &[u8], at: Bytes) -> [u8; N]
    ensures { le N result 0 ≡ le N s.now at.0 }
{
    let rest = &s[at.0.min(s.len())..];
    match rest.first_chunk() {
        Some(bytes) => *bytes,
        None => {
            let mut bytes = [0; N];
            copy(rest, &mut bytes);
            bytes
        }
    }
}

pub fn u16_at(s: &[u8], at: Bytes) -> u16
    ensures { result ≡ le 2 s.now at.0 }
{
    u16::from_le_bytes(bytes_at(s, at))
}

pub fn u32_at(s: &[u8], at: Bytes) -> u32
    ensures { result ≡ le 4 s.now at.0 }
{
    u32::from_le_bytes(bytes_at(s, at))
}

pub fn u64_at(s: &[u8], at: Bytes) -> u64
    ensures { result ≡ le 8 s.now at.0 }
{
    u64::from_le_bytes(bytes_at(s, at))
}
