#![tactic(auto)]
// Reads a file of records on standard input and prints a line for each, as 01 says. Files of any length, in bounded memory.
// Where a read or a write fails, standard error says so and no `end` or `stop` line is printed; the lines of the records
// before a failed read are.
use octets::count::Bytes;
use records::append::append_line;
use records::head::Next;
use records::line::Row;
use records::record::next_record;
use streams::buffer::large_buffer;
use streams::output::{put_first, tell};
use streams::streams::{Standard, standard};
use streams::window::{Window, bytes_held, refill};
use streams::word::has_word;

// (Streams and output stay apart: `list` needs the streams for its input in between.)
// Hands the lines on, and adds a line as the first; how many bytes are used then, or none where handing on has failed. (No
// line is longer than the buffer.)
fn add_first_line(
    streams: &mut Standard,
    row: Row,
    output: &mut [u8],
    used: Bytes,
) -> Option<Bytes> {
    if !put_first(streams, output, used) {
        return None;
    }
    append_line(row, output, Bytes(0)).ok()
}

// Adds a line; where it does not fit, those before it are handed on first.
fn add_line(streams: &mut Standard, row: Row, output: &mut [u8], used: Bytes) -> Option<Bytes> {
    match append_line(row, output, used) {
        Ok(more) => Some(more),
        Err(_) => add_first_line(streams, row, output, used),
    }
}

// Hands the lines on, and then the last one, which so is printed only where those before it were.
fn finish(streams: &mut Standard, row: Row, output: &mut [u8], used: Bytes) {
    if let Some(last) = add_first_line(streams, row, output, used) {
        put_first(streams, output, last);
    }
}

// How many bytes a record takes of those held, and how many of the output are used with its line.
#[derive(Clone, Copy)]
struct Listed {
    size: Bytes,
    used: Bytes,
}

// The record at the first byte of `held`; none where the last line is printed, or where handing lines on has failed.
fn list_next(
    streams: &mut Standard,
    number: u64,
    held: &[u8],
    output: &mut [u8],
    used: Bytes,
) -> Option<Listed> {
    let last = match next_record(held) {
        Next::Found(record) => {
            let used = add_line(streams, Row::Record(number, record.answer), output, used)?;
            return Some(Listed {
                size: record.size,
                used,
            });
        }
        Next::End => Row::End(number),
        Next::Stop => Row::Stop(number),
    };
    finish(streams, last, output, used);
    None
}

// A proved loop has to end, and nothing says that the input does: this one ends at the latest where the records' number
// would no longer fit its 64 bits.
fn list(streams: &mut Standard, input: &mut [u8], output: &mut [u8]) {
    let mut window = Window::empty();
    let Some(mut used) = add_first_line(streams, Row::Header, output, Bytes(0)) else {
        return;
    };
    for number in 0..u64::MAX {
        window = refill(streams, input, window);
        if window.has_failed {
            put_first(streams, output, used);
            return;
        }
        let held = bytes_held(input, window);
        let Some(listed) = list_next(streams, number, held, output, used) else {
            return;
        };
        window = window.behind(listed.size);
        used = listed.used;
    }
}

fn main(rt: HostRuntime) {
    let mut streams = standard(rt);
    if has_word(&rt, 1) {
        tell(
            &mut streams.errors,
            b"listing takes no words: it reads a day's file on standard input\n",
        );
        return;
    }
    let mut input = large_buffer();
    let mut output = large_buffer();
    list(&mut streams, &mut input, &mut output);
}
