// The lines of the output: a name and its value.
use crate::page::Page;
use display::hex::put_hex;
use display::shown::put_shown;
use octets::count::Bytes;
use octets::part::within;
use rules::section::Part;
use std::fmt::{Display, Write};
use streams::text::Text;

impl Page {
    pub(crate) fn number<N: Display + Drop>(&mut self, name: &str, n: N) {
        let _ = writeln!(self, "{name}{n}");
    }

    // In hexadecimal, of at least so many digits. (In one piece: std writes the zeros before a number one by one, and a page
    // would be cut among them.)
    pub(crate) fn code(&mut self, name: &str, n: u32, width: usize) {
        let mut digits = Text::empty();
        let _ = write!(digits, "{n:0width$x}");
        let _ = write!(self, "{name}0x");
        self.piece(digits.as_bytes());
        self.piece(b"\n");
    }

    pub(crate) fn yes_or_no(&mut self, name: &str, is_so: bool) {
        let answer = if is_so { "yes" } else { "no" };
        let _ = writeln!(self, "{name}{answer}");
    }

    pub(crate) fn part(&mut self, name: &str, p: Part) {
        let (start, length) = (p.start.0, p.length.0);
        let _ = writeln!(self, "{name}start {start}, length {length}");
    }

    // In hexadecimal.
    pub(crate) fn bytes(&mut self, name: &str, s: &[u8]) {
        let mut digits = [0u8; 4096];
        self.piece(name.as_bytes());
        for bytes in s.chunks(2048) {
            let taken = put_hex(bytes, &mut digits).0;
            self.piece(&digits[..2 * taken]);
        }
        self.piece(b"\n");
    }

    // A text with the null that ends it, which is not shown, in quotes; or that there is none.
    pub(crate) fn text(&mut self, name: &str, s: &[u8]) {
        if s.len() < 2 {
            let _ = writeln!(self, "{name}none");
            return;
        }
        let mut text = [0u8; 4096];
        let _ = write!(self, "{name}\"");
        // 682 units take six bytes each at most
        for units in s[..s.len() - 2].chunks(1364) {
            let length = put_shown(units, &mut text).length;
            self.piece(within(&text, Bytes(0), length));
        }
        self.piece(b"\"\n");
    }
}
