// The support copies of a day's file, of any length in bounded memory. Standard output gets whole records.
ghost use Rattle.std.specs.Prelude.{◌≡◌, cond, ◌+◌, ◌<◌, ◌≤◌, length};
ghost use Rattle.copies.specs.Day.{DayHolds};

use crate::told::{tell_counts, tell_left_out, tell_stopped};
use copying::record::{CopiedRecord, copy_record};
use octets::count::Bytes;
use records::head::{HEAD, LONGEST};
use std::io::Write;
use streams::buffer::large_buffer;
use streams::output::put_first;
use streams::streams::Standard;
use streams::window::{Window, bytes_held, refill};

// How far it has come: what is held of the input, how many bytes of copies wait in the output, how many records were
// copied and how many left out. (The buffers are lent beside it, in fixed memory.)
#[derive(Clone, Copy, Default)]
struct Day {
    window: Window,
    used: Bytes,
    copied: u64,
    left_out: u64,
}

impl Day {
    fn start() -> Day
        ensures used_value { result.used.0 ≡ 0 }
        ensures counted { result.copied + result.left_out ≡ 0 }
    {
        Day::default()
    }

    // Hands the copies on where the next might not fit behind them, and answers whether it could.
    fn make_room(&mut self, streams: &mut Standard, output: &[u8]) -> bool
        requires { self.old.used.0 ≤ length output.now }
        ensures used_in_bounds { self.new.used.0 ≤ length output.now }
        ensures copied_value { self.new.copied ≡ self.old.copied }
        ensures left_out_value { self.new.left_out ≡ self.old.left_out }
    {
        let used = self.used;
        if HEAD + LONGEST <= output.len() - used.0 {
            return true;
        }
        self.used = Bytes(0);
        put_first(streams, output, used)
    }

    // The record of this number, its copy behind those that wait; or there is none, and the answer is no. Why one has to be
    // left out or the file to end is told.
    fn advance<E: Write>(
        &mut self,
        errors: &mut E,
        number: u64,
        input: &[u8],
        output: &mut [u8],
    ) -> bool
        requires number_bound { number < 18446744073709551615 }
        requires day_holds { DayHolds number output.old self.old }
        ensures { DayHolds (cond result (number + 1) number) output.old self.new }
    {
        let at = self.used.0;
        match copy_record(bytes_held(input, self.window), &mut output[at..]) {
            CopiedRecord::Copied(copy) => {
                self.window = self.window.behind(copy.size);
                self.used = Bytes(at + copy.written.0);
                self.copied += 1;
                true
            }
            CopiedRecord::Refused(left) => {
                tell_left_out(errors, number, left.refusal);
                self.window = self.window.behind(left.size);
                self.left_out += 1;
                true
            }
            CopiedRecord::End => false,
            CopiedRecord::Stop => {
                tell_stopped(errors, number);
                false
            }
        }
    }

    // Hands the last copies on, and tells how many records there were.
    fn finish(self, streams: &mut Standard, output: &[u8]) {
        if put_first(streams, output, self.used) {
            tell_counts(&mut streams.errors, self.copied, self.left_out);
        }
    }
}

// A proved loop has to end, and nothing says that the input does: this one ends at the latest where the records' number
// would no longer fit its 64 bits.
fn copy_records(streams: &mut Standard, input: &mut [u8], output: &mut [u8]) {
    let mut day = Day::start();
    for number in 0..u64::MAX {
        day.window = refill(streams, input, day.window);
        if !day.make_room(streams, output) {
            return;
        }
        if day.window.has_failed || !day.advance(&mut streams.errors, number, input, output) {
            day.finish(streams, output);
            return;
        }
    }
}

pub(crate) fn copy_day(streams: &mut Standard) {
    let mut input = large_buffer();
    let mut output = large_buffer();
    copy_records(streams, &mut input, &mut output);
}
