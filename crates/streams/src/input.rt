// Reading standard input.
ghost use Rattle.std.specs.Prelude.{◌≡◌, ◌≤◌, length, take, IfOk};
ghost use Rattle.std.specs.Io.KnownBytes.{Consumes, IsAtEnd, ReadConsumes};
ghost use Rattle.streams.specs.Input.{Fills};
ghost use Rattle.streams.specs.declared.input.Ended.TheVariants.{Over};

use crate::output::tell_failed;
use crate::streams::Streams;
use octets::count::Bytes;
use std::io;
use std::io::{Read, Write};

// Why a fill ended: the buffer is full, the input is over, or a read failed.
#[derive(Clone, Copy, PartialEq, Eq)]
pub enum Ended {
    Full,
    Over,
    Failed,
}

// How many bytes stand at the front of the buffer, and why no more.
#[derive(Clone, Copy)]
pub struct Filled {
    pub count: Bytes,
    pub ended: Ended,
}

// One read; how many bytes it put at the front of the buffer, or why it failed, which is told.
fn read_some<I: Read, O, E: Write>(
    streams: &mut Streams<I, O, E>,
    buf: &mut [u8],
) -> io::Result<usize>
    ensures buf_len_unchanged { length buf.new ≡ length buf.old }
    ensures in_bounds { IfOk result (λ n. n ≤ length buf.old) }
    ensures read { ReadConsumes (I.remaining streams.old.input) (I.remaining streams.new.input) result buf.new }
{
    match streams.input.read(buf) {
        Ok(count) => Ok(count),
        Err(error) => {
            tell_failed(&mut streams.errors, b"standard input", &error);
            Err(error)
        }
    }
}

// Reads until the buffer is full or the input is over. Of a reader whose bytes are known, those that were read stand at
// the buffer's front, and none are left where it says that the input is over. (`read_exact` answers no count.)
pub fn fill<I: Read, O, E: Write>(streams: &mut Streams<I, O, E>, buf: &mut [u8]) -> Filled
    ensures fills { Fills (length buf.old) result }
    ensures buf_len_unchanged { length buf.new ≡ length buf.old }
    ensures read { Consumes (I.remaining streams.old.input) (I.remaining streams.new.input) (take result.count.0 buf.new) }
    ensures over { result.ended ≡ Over → IsAtEnd (I.remaining streams.new.input) }
{
    let mut done = 0;
    while done < buf.len() {
        match read_some(streams, &mut buf[done..]) {
            Err(_) => {
                return Filled {
                    count: Bytes(done),
                    ended: Ended::Failed,
                };
            }
            Ok(0) => {
                return Filled {
                    count: Bytes(done),
                    ended: Ended::Over,
                };
            }
            Ok(more) => done += more,
        }
    }
    Filled {
        count: Bytes(done),
        ended: Ended::Full,
    }
}
