// Bytes written over a lent output.
ghost use Rattle.std.specs.Prelude.{◌≡◌, length, replicate};
ghost use Rattle.octets.specs.Over.{copied, moved_to_front};

use crate::count::Bytes;

// Over the output's first bytes, as many as both hold. (Where that is none, no move is called for: most portions bring
// nothing of most windows.)
pub fn copy(s: &[u8], out: &mut [u8])
    ensures { out.new ≡ copied s.now out.old }
{
    let n = s.len().min(out.len());
    if n != 0 {
        out[..n].copy_from_slice(&s[..n]);
    }
}

// The bytes from `start` to `end` over the buffer's first bytes. Where they do not all lie in the buffer it stays as it is.
pub fn move_to_front(buffer: &mut [u8], start: Bytes, end: Bytes)
    ensures { buffer.new ≡ moved_to_front start.0 end.0 buffer.old }
{
    if start.0 <= end.0 && end.0 <= buffer.len() {
        buffer.copy_within(start.0..end.0, 0);
    }
}

// Over the whole output. (By an index: with `fill` zeros took a quarter longer at 100 and at 500 bytes, measured by itself.)
pub fn zero(out: &mut [u8])
    ensures { out.new ≡ replicate (length out.old) 0 }
{
    for i in 0..out.len() {
        out[i] = 0;
    }
}
