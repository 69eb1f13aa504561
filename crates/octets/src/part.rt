// A part of a slice.
ghost use Rattle.std.specs.Prelude.{◌≡◌};
ghost use Rattle.octets.specs.Part.{within};

use crate::count::Bytes;

// The `length` bytes from `start`, or none where they are not all there.
pub fn within(s: &[u8], start: Bytes, length: Bytes) -> &[u8]
    ensures { result.now ≡ within s.now start.0 length.0 }
{
    match s.get(start.0..) {
        Some(rest) if length.0 <= rest.len() => &rest[..length.0],
        _ => &s[..0],
    }
}
