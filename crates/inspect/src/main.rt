#![tactic(auto)]
// Reads one section on standard input and prints its summary and its support copy; what is private only where the word
// `private` asks for it.
mod field;
mod line;
mod page;
mod private;
mod properties;
mod refused;
mod security;
mod summary;
mod words;

use octets::count::Bytes;
use octets::part::within;
use page::Page;
use private::private;
use reading::section::read;
use refused::refused;
use rules::section::Section;
use streams::input::{Ended, fill};
use streams::section::{section_buffer, tell_too_long};
use streams::streams::{Standard, standard};
use summary::summary;
use support::copy::support_copy;
use words::{Words, given_words, tell_usage};

fn copy(page: &mut Page, s: &[u8], security_first: bool) {
    let mut out = section_buffer();
    match support_copy(s, security_first, &mut out) {
        Err(r) => refused(page, s, security_first, r),
        Ok(n) => page.bytes("support copy: ", within(&out, Bytes(0), n)),
    }
}

fn accepted(page: &mut Page, s: &[u8], r: Section, words: Words) {
    page.piece(b"accepted\n");
    summary(page, s, &r.summary);
    copy(page, s, words.security_first);
    if words.is_private {
        private(page, s, r);
    }
}

fn inspect(streams: Standard, s: &[u8], words: Words) {
    let mut page = Page::empty(streams);
    match read(s, words.security_first) {
        Err(r) => refused(&mut page, s, words.security_first, r),
        Ok(r) => accepted(&mut page, s, r, words),
    }
    page.flush();
}

fn inspect_input(mut streams: Standard, words: Words) {
    let mut section = section_buffer();
    let filled = fill(&mut streams, &mut section);
    match filled.ended {
        Ended::Failed => {}
        Ended::Full => tell_too_long(&mut streams.errors),
        Ended::Over => inspect(streams, within(&section, Bytes(0), filled.count), words),
    }
}

fn main(rt: HostRuntime) {
    let mut streams = standard(rt);
    match given_words(&rt) {
        Some(words) => inspect_input(streams, words),
        None => tell_usage(&mut streams.errors),
    }
}
