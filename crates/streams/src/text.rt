// A short text, formatted without an allocation.
ghost use Rattle.std.specs.Prelude.{◌≡◌, ◌≤◌, [], ◌++◌, take};

use std::fmt;

// The text is the first `used` bytes, since std has no text in fixed memory and the project uses no other crate. A number has fewer than the room, and so has
// the reason of an error.
#[derive(Drop)]
pub struct Text {
    pub bytes: [u8; 128],
    pub used: usize,
    ghost fits: { used ≤ 128 },
}

impl Text {
    pub fn empty() -> Text
        ensures { take result.used result.bytes ≡ [] }
    {
        Text {
            bytes: [0; 128],
            used: 0,
        }
    }

    pub fn as_bytes(&self) -> &[u8]
        ensures { result.now ≡ take self.now.used self.now.bytes }
    {
        &self.bytes[..self.used]
    }
}

// What does not fit is an error, and leaves the text as it was.
impl fmt::Write for Text {
    ghost write_str_gives = { λ s added t. take t.used t.bytes ≡ take s.used s.bytes ++ added };

    fn write_str(&mut self, s: &str) -> fmt::Result {
        let added = s.as_bytes();
        let start = self.used;
        if 128 - start < added.len() {
            return Err(fmt::Error);
        }
        let end = start + added.len();
        self.bytes[start..end].copy_from_slice(added);
        self.used = end;
        Ok(())
    }
}
