// Writing standard output and standard error.
ghost use Rattle.std.specs.Prelude.{◌≡◌, false, true, OnErr, OnOk};
ghost use Rattle.std.specs.Io.KnownBytes.{Appends};
ghost use Rattle.octets.specs.Part.{within};
ghost use Rattle.streams.specs.Output.{AppendsSome};

use crate::reason::{formatted, words};
use crate::streams::Streams;
use crate::text::Text;
use octets::count::Bytes;
use octets::part::within;
use std::fmt::Write as _;
use std::io;
use std::io::{Error, Write};

// Writes all of it, or stops at the first write that fails or takes nothing, of which the system gives no reason. A write
// that a signal interrupts has failed. (`write_all` would go on, and promises nothing of what a failed one wrote.)
fn write<W: Write>(to: &mut W, bytes: &[u8]) -> io::Result<()>
    ensures ok { OnOk result (Appends (W.contents to.old) (W.contents to.new) bytes.now) }
    ensures err { OnErr result (AppendsSome (W.contents to.old) (W.contents to.new) bytes.now) }
{
    let mut done = 0;
    while done < bytes.len() {
        let count = to.write(&bytes[done..])?;
        if count == 0 {
            return Err(Error::from_raw_os_error(0));
        }
        done += count;
    }
    Ok(())
}

// Writes to standard error. Where that fails there is nobody to tell.
pub fn tell<E: Write>(errors: &mut E, bytes: &[u8])
    ensures { AppendsSome (E.contents errors.old) (E.contents errors.new) bytes.now }
{
    let _ = write(errors, bytes);
}

pub fn tell_number<E: Write>(errors: &mut E, n: u64) {
    let mut digits = Text::empty();
    let _ = write!(digits, "{n}");
    tell(errors, digits.as_bytes());
}

// A line: what failed, and why.
pub(crate) fn tell_failed<E: Write>(errors: &mut E, what: &[u8], error: &Error) {
    let reason = formatted(error);
    tell(errors, what);
    tell(errors, b": ");
    tell(errors, words(reason.as_bytes()));
    tell(errors, b"\n");
}

// Writes all of it to standard output, and answers whether it could: why not is told already.
pub fn put<I, O: Write, E: Write>(streams: &mut Streams<I, O, E>, bytes: &[u8]) -> bool
    ensures put { result ≡ true → Appends (O.contents streams.old.output) (O.contents streams.new.output) bytes.now }
    ensures failed { result ≡ false
        → AppendsSome (O.contents streams.old.output) (O.contents streams.new.output) bytes.now }
{
    match write(&mut streams.output, bytes) {
        Ok(()) => true,
        Err(error) => {
            tell_failed(&mut streams.errors, b"standard output", &error);
            false
        }
    }
}

// Writes a buffer's first bytes to standard output, and answers whether it could.
pub fn put_first<I, O: Write, E: Write>(
    streams: &mut Streams<I, O, E>,
    buffer: &[u8],
    count: Bytes,
) -> bool
    ensures put { result ≡ true
        → Appends (O.contents streams.old.output) (O.contents streams.new.output) (within buffer.now 0 count.0) }
    ensures failed { result ≡ false
        → AppendsSome (O.contents streams.old.output) (O.contents streams.new.output) (within buffer.now 0 count.0) }
{
    put(streams, within(buffer, Bytes(0), count))
}
