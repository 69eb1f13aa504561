// Standard input through a buffer: the part of it that is held, and reading on.
ghost use Rattle.std.specs.Prelude.{◌≡◌, ◌<◌, ◌≤◌, true, false, drop, length, take};
ghost use Rattle.std.specs.Io.KnownBytes.{Consumes, IsAtEnd};
ghost use Rattle.records.specs.Enough.{is_enough};
ghost use Rattle.streams.specs.Window.{ReadOn, Refilled, bytes_held, front, held, window_behind, window_to};

use crate::input::{Ended, fill};
use crate::streams::Streams;
use octets::count::Bytes;
use octets::over::move_to_front;
use octets::part::within;
use records::enough::is_enough;
use std::io::{Read, Write};

// The buffer's bytes from `start` to `end`; whether the input ends with them, and whether a read has failed. (Two marks: the
// definition `is_enough` takes the first, `window_to` says both; the buffer is lent beside it, in fixed memory.)
#[derive(Clone, Copy, Default)]
pub struct Window {
    pub start: Bytes,
    pub end: Bytes,
    pub is_over: bool,
    pub has_failed: bool,
}

impl Window {
    // Before the first read.
    pub fn empty() -> Window
        ensures { result ≡ front 0 false false }
    {
        Window::default()
    }

    // How many bytes are held.
    pub fn held(self) -> Bytes
        ensures { result.0 ≡ held self }
    {
        Bytes(self.end.0.saturating_sub(self.start.0))
    }

    // The same behind the first `size` bytes held, or behind all where they are fewer.
    pub fn behind(self, size: Bytes) -> Window
        ensures { result ≡ window_behind size.0 self }
    {
        let taken = size.0.min(self.held().0);
        Window {
            start: Bytes(self.start.0 + taken),
            ..self
        }
    }
}

// The bytes held, or none where the window does not lie in the buffer.
pub fn bytes_held(buffer: &[u8], window: Window) -> &[u8]
    ensures { result.now ≡ bytes_held window buffer.now }
{
    within(buffer, window.start, window.held())
}

#[tactic(auto, unfolding(crate::specs::Window::window_to))]
fn window_to(end: Bytes, ended: Ended) -> Window
    ensures { result ≡ window_to end.0 ended }
{
    Window {
        start: Bytes(0),
        end,
        is_over: ended == Ended::Over,
        has_failed: ended == Ended::Failed,
    }
}

// Moves the bytes held to the buffer's front, and reads on behind them until it is full. A window that does not lie in
// the buffer counts as a failed read. Of a reader whose bytes are known, those that are read stand behind the bytes held,
// and none are left where the input is over.
pub fn read_on<I: Read, O, E: Write>(
    streams: &mut Streams<I, O, E>,
    buffer: &mut [u8],
    window: Window,
) -> Window
    ensures read_on { ReadOn window result buffer.old buffer.new }
    ensures read { window.end.0 ≤ length buffer.old
        → Consumes (I.remaining streams.old.input) (I.remaining streams.new.input)
        (drop (held window) (take result.end.0 buffer.new)) }
    ensures over { result.is_over ≡ true → IsAtEnd (I.remaining streams.new.input) }
    ensures unread { length buffer.old < window.end.0 → streams.new.input ≡ streams.old.input }
{
    if buffer.len() < window.end.0 {
        return window_to(Bytes(0), Ended::Failed);
    }
    let held = window.held().0;
    move_to_front(buffer, window.start, window.end);
    let filled = fill(streams, &mut buffer[held..]);
    let ended = filled.ended;
    window_to(Bytes(held + filled.count.0), ended)
}

// Reads on where the bytes held may not decide the next record of a day's file.
pub fn refill<I: Read, O, E: Write>(
    streams: &mut Streams<I, O, E>,
    buffer: &mut [u8],
    window: Window,
) -> Window
    ensures refilled { Refilled window result buffer.old buffer.new }
    ensures read { is_enough (held window) window.is_over ≡ false → window.end.0 ≤ length buffer.old
        → Consumes (I.remaining streams.old.input) (I.remaining streams.new.input)
        (drop (held window) (take result.end.0 buffer.new)) }
    ensures over { is_enough (held window) window.is_over ≡ false → result.is_over ≡ true
        → IsAtEnd (I.remaining streams.new.input) }
    ensures unread { is_enough (held window) window.is_over ≡ true → streams.new.input ≡ streams.old.input }
{
    if is_enough(window.held(), window.is_over) {
        return window;
    }
    read_on(streams, buffer, window)
}
