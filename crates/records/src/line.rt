// The lines that the listing program prints.
ghost use Rattle.std.specs.Prelude.{◌≡◌, [], ◌∷◌, ◌++◌, ◌+◌, ◌≤◌, Err, Ok, length};
ghost use Rattle.octets.specs.Over.{over};
ghost use Rattle.records.specs.Decimal.{decimal};
ghost use Rattle.records.specs.Line.{line_bytes, row_bytes, sizes_bytes};

use crate::piece::{put_number, put_word};
use crate::record::Line;
use octets::count::Bytes;
use rules::refusal::Refusal;

// The names of the columns; a record's number and answer; the last line, where the file ends behind so many whole records,
// or where the record of this number is wrong or cut.
#[derive(Clone, Copy)]
pub enum Row {
    Header,
    Record(u64, Result<Line, Refusal>),
    End(u64),
    Stop(u64),
}

// (No array: a line is put wherever an output has room for it.) No line is longer: six numbers of up to 20 digits, each with a byte after it, and a word.
pub(crate) const LINE_ROOM: usize = 192;

// A record's number and its answer, with a space after each.
fn put_lead(number: u64, answer: &[u8], text: &mut [u8]) -> Bytes
    requires { 21 + length answer.now ≤ length text.old }
    ensures result_value { result.0 ≡ length (decimal number ++ (32 ∷ answer.now)) }
    ensures result_bound { result.0 ≤ 21 + length answer.now }
    ensures text_after { text.new ≡ over (decimal number ++ (32 ∷ answer.now)) text.old }
{
    let word = put_number(number, b' ', text).0;
    Bytes(word + put_word(answer, &mut text[word..]).0)
}

// The columns ext, body and total.
fn put_sizes(values: Line, text: &mut [u8]) -> Bytes
    requires { 63 ≤ length text.old }
    ensures result_value { result.0 ≡ length (sizes_bytes values) }
    ensures result_bound { result.0 ≤ 63 }
    ensures text_after { text.new ≡ over (sizes_bytes values) text.old }
{
    let body = put_number(values.extension_size.0 as u64, b' ', text).0;
    let total = body + put_number(values.message_size.0 as u64, b' ', &mut text[body..]).0;
    Bytes(total + put_number(values.section_length.0 as u64, b'\n', &mut text[total..]).0)
}

fn put_accepted(number: u64, values: Line, text: &mut [u8]) -> Bytes
    requires { 192 ≤ length text.old }
    ensures result_value { result.0 ≡ length (line_bytes number (Ok values)) }
    ensures result_bound { result.0 ≤ 192 }
    ensures text_after { text.new ≡ over (line_bytes number (Ok values)) text.old }
{
    let class = put_lead(number, b"ok ", text).0;
    let label = class + put_number(values.message_class as u64, b' ', &mut text[class..]).0;
    let extension = label + put_number(values.label_length.0 as u64, b' ', &mut text[label..]).0;
    Bytes(extension + put_sizes(values, &mut text[extension..]).0)
}

fn put_refused(number: u64, refused: Refusal, text: &mut [u8]) -> Bytes
    requires { 192 ≤ length text.old }
    ensures result_value { result.0 ≡ length (line_bytes number (Err refused)) }
    ensures result_bound { result.0 ≤ 192 }
    ensures text_after { text.new ≡ over (line_bytes number (Err refused)) text.old }
{
    let refusal = put_lead(number, b"refused ", text).0;
    let place = refusal + put_number(refused.number as u64, b' ', &mut text[refusal..]).0;
    Bytes(place + put_number(refused.place.0 as u64, b'\n', &mut text[place..]).0)
}

// The line that comes last: a word, and a number.
fn put_last(word: &[u8], number: u64, text: &mut [u8]) -> Bytes
    requires { length word.now + 21 ≤ length text.old }
    ensures result_value { result.0 ≡ length (word.now ++ (decimal number ++ (10 ∷ []))) }
    ensures result_bound { result.0 ≤ length word.now + 21 }
    ensures text_after { text.new ≡ over (word.now ++ (decimal number ++ (10 ∷ []))) text.old }
{
    let end = put_word(word, text).0;
    Bytes(end + put_number(number, b'\n', &mut text[end..]).0)
}

// The line where there is room for any.
#[tactic(auto, unfolding(crate::specs::Line::row_bytes, crate::specs::Line::header_line, crate::specs::Line::line, crate::specs::Line::end_line, crate::specs::Line::stop_line))]
pub(crate) fn put_row(row: Row, text: &mut [u8]) -> Bytes
    requires { 192 ≤ length text.old }
    ensures result_value { result.0 ≡ length (row_bytes row) }
    ensures result_bound { result.0 ≤ 192 }
    ensures text_after { text.new ≡ over (row_bytes row) text.old }
{
    match row {
        Row::Header => put_word(b"no answer class label ext body total\n", text),
        Row::Record(number, answer) => match answer {
            Ok(values) => put_accepted(number, values, text),
            Err(refused) => put_refused(number, refused, text),
        },
        Row::End(count) => put_last(b"end ", count, text),
        Row::Stop(number) => put_last(b"stop ", number, text),
    }
}
