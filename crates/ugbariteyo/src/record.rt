// The next record of a day's file, as the listing reads it.
ghost use Rattle.std.specs.Prelude.{◌≡◌, ◌≤◌};
ghost use Rattle.records.specs.Record.{next_record};
ghost use Rattle.ugbariteyo.specs.Record.{found_answer, nothing_found, record_answer, SectionJudged};

use octets::count::{Bytes, Units};
use records::head::{HEAD, Next};
use records::record::{Record, next_record};
use rules::refusal::Refusal;
use rules::section::Part;

// What `next` says. (Numbers, as C has them.)
pub const END: u32 = 0;

pub const STOP: u32 = 1;

pub const FOUND: u32 = 2;

// `size` counts head and section together; `section` is where the section lies.
#[repr(C)]
#[derive(Clone, Copy, Default)]
pub struct UgbRecord {
    pub next: u32,
    pub size: Bytes,
    pub security_first: bool,
    pub section: Part,
    pub refusal: Refusal,
    pub message_class: u16,
    pub label_length: Units,
    pub extension_size: Bytes,
    pub message_size: Bytes,
    pub section_length: Bytes,
}

#[tactic(auto, unfolding(crate::specs::Record::nothing_found, crate::specs::Record::record_filled, crate::specs::Record::no_line))]
fn nothing_found(next: u32) -> UgbRecord
    ensures { result ≡ nothing_found next }
{
    UgbRecord {
        next,
        ..UgbRecord::default()
    }
}

// (No `From`: it asks for a size.)
#[tactic(auto, unfolding(crate::specs::Record::found_answer, crate::specs::Record::found, crate::specs::Record::record_filled, crate::specs::Record::no_line))]
fn found_answer(found: Record) -> UgbRecord
    requires { 8 ≤ found.size.0 }
    ensures { result ≡ found_answer found }
{
    let judged = UgbRecord {
        next: FOUND,
        size: found.size,
        security_first: found.security_first,
        section: Part {
            start: Bytes(HEAD),
            length: Bytes(found.size.0 - HEAD),
        },
        ..UgbRecord::default()
    };
    match found.answer {
        Err(refusal) => UgbRecord { refusal, ..judged },
        Ok(line) => UgbRecord {
            message_class: line.message_class,
            label_length: line.label_length,
            extension_size: line.extension_size,
            message_size: line.message_size,
            section_length: line.section_length,
            ..judged
        },
    }
}

pub fn ugb_next_record(s: &[u8]) -> UgbRecord
    ensures value { result ≡ record_answer (next_record s.now) }
    ensures section_judged { SectionJudged s.now result }
{
    match next_record(s) {
        Next::End => nothing_found(END),
        Next::Stop => nothing_found(STOP),
        Next::Found(found) => found_answer(found),
    }
}
