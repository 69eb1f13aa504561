// A record of the listing program's file: a head of 8 bytes, and a section.
ghost use Rattle.std.specs.Prelude.{◌≡◌};
ghost use Rattle.rules.specs.Reading.{summarize};
ghost use Rattle.records.specs.Record.{answer_of, next_record};

use crate::head::{HEAD, Next, next_head};
use octets::count::{Bytes, Units};
use reading::properties::properties_fields;
use reading::section::judge;
use rules::properties::section_end;
use rules::refusal::Refusal;

// The values of a listing line: 01's columns class, label, ext, body and total.
#[derive(Clone, Copy)]
pub struct Line {
    pub message_class: u16,
    pub label_length: Units,
    pub extension_size: Bytes,
    pub message_size: Bytes,
    pub section_length: Bytes,
}

// `size` counts head and section together.
#[derive(Clone, Copy)]
pub struct Record {
    pub size: Bytes,
    pub security_first: bool,
    pub answer: Result<Line, Refusal>,
}

// What the listing says of a section. (Only the fields that a line has are read: a summary is some 300 bytes.)
fn answer_of(section: &[u8], security_first: bool) -> Result<Line, Refusal>
    ensures { result ≡ answer_of (summarize security_first section.now) }
{
    let at = judge(section, security_first)?;
    let fields = properties_fields(section, at);
    Ok(Line {
        message_class: fields.message_class,
        label_length: fields.label_length,
        extension_size: fields.extension_size,
        message_size: fields.message_size,
        section_length: section_end(fields, at),
    })
}

// The record at the first byte of `s`, the rest of the file.
#[tactic(auto, unfolding(crate::specs::Record::next_record, crate::specs::Record::record_behind))]
pub fn next_record(s: &[u8]) -> Next<Record>
    ensures { result ≡ next_record s.now }
{
    match next_head(s) {
        Next::End => Next::End,
        Next::Stop => Next::Stop,
        Next::Found(head) => {
            let end = HEAD + head.length.0;
            let security_first = head.security_first;
            Next::Found(Record {
                size: Bytes(end),
                security_first,
                answer: answer_of(&s[HEAD..end], security_first),
            })
        }
    }
}
