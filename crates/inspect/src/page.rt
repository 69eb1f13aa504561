// Standard output by way of a page, so that few writes are made.
ghost use Rattle.std.specs.Prelude.{◌≡◌, ◌≤◌};

use octets::count::Bytes;
use std::fmt;
use streams::buffer::large_buffer;
use streams::output::{put, put_first};
use streams::streams::Standard;

// The first `used` bytes wait to be written, in fixed memory: std's `BufWriter` allocates. Once a write has failed, nothing more is written.
#[derive(Drop)]
pub(crate) struct Page {
    bytes: [u8; 65536],
    used: usize,
    has_failed: bool,
    streams: Standard,
    ghost fits: { used ≤ 65536 },
}

impl Page {
    pub(crate) fn empty(streams: Standard) -> Page {
        Page {
            bytes: large_buffer(),
            used: 0,
            has_failed: false,
            streams,
        }
    }

    // Writes what waits.
    pub(crate) fn flush(&mut self)
        ensures { self.new.used ≡ 0 }
    {
        let waiting = Bytes(self.used);
        self.has_failed = self.has_failed || !put_first(&mut self.streams, &self.bytes, waiting);
        self.used = 0;
    }

    // Puts some bytes behind what waits. What is longer than a page is written at once.
    pub(crate) fn piece(&mut self, bytes: &[u8]) {
        if 65536 - self.used < bytes.len() {
            self.flush();
        }
        if 65536 < bytes.len() {
            self.has_failed = self.has_failed || !put(&mut self.streams, bytes);
            return;
        }
        let start = self.used;
        let end = start + bytes.len();
        self.bytes[start..end].copy_from_slice(bytes);
        self.used = end;
    }
}

// A write that fails is told by the streams, and is no error here.
impl fmt::Write for Page {
    fn write_str(&mut self, s: &str) -> fmt::Result {
        self.piece(s.as_bytes());
        Ok(())
    }
}
