// Why a read or a write failed, in the system's words.
ghost use Rattle.std.specs.Io.{StartsWith};

use crate::text::Text;
use std::fmt::Write;
use std::io::Error;

// The text before what std puts behind the system's words, as ` (os error 21)`, or all of it.
pub(crate) fn words(text: &[u8]) -> &[u8]
    ensures { StartsWith text.now result.now }
{
    match text
        .windows(11)
        .position(|w| w == b" (os error ".as_slice())
    {
        Some(i) => &text[..i],
        None => text,
    }
}

// The error as std formats it.
pub(crate) fn formatted(error: &Error) -> Text {
    let mut text = Text::empty();
    let _ = write!(text, "{error}");
    text
}
