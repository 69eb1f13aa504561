// A record of a day's file, its section replaced by its support copy.
ghost use Rattle.std.specs.Prelude.{◌≡◌, ◌++◌, ◌≤◌, min, drop, length, take};
ghost use Rattle.rules.specs.Support.{support_answer, support_bytes};
ghost use Rattle.copying.specs.Record.{answer_behind, bytes_behind, copy_bytes, copy_record};

use octets::count::Bytes;
use octets::over::copy;
use records::head::{HEAD, Head, Next, head_bytes, next_head};
use rules::refusal::Refusal;
use support::copy::support_copy;

// How many bytes of the file the record takes, and how many its copy takes of the output.
#[derive(Clone, Copy)]
pub struct RecordCopy {
    pub size: Bytes,
    pub written: Bytes,
}

// A record that is left out.
#[derive(Clone, Copy)]
pub struct LeftOut {
    pub size: Bytes,
    pub refusal: Refusal,
}

// `End` and `Stop` as of a head. (Four cases with a meaning of their own: a `Result` of `Next` would say it in two layers.)
#[derive(Clone, Copy)]
pub enum CopiedRecord {
    End,
    Stop,
    Copied(RecordCopy),
    Refused(LeftOut),
}

// How many bytes of the output stay free for a head.
fn head_room(out: &[u8]) -> Bytes
    ensures { result.0 ≡ min 8 (length out.now) }
{
    Bytes(out.len().min(HEAD))
}

// The support copy, behind room for a head. An output without that room has none for a copy either.
fn copy_section(section: &[u8], security_first: bool, out: &mut [u8]) -> Result<Bytes, Refusal>
    ensures value { result ≡ support_answer security_first section.now (drop 8 out.old) }
    ensures out_after { out.new ≡ take 8 out.old ++ support_bytes security_first section.now (drop 8 out.old) }
{
    let at = head_room(out).0;
    support_copy(section, security_first, &mut out[at..])
}

// The copy of the section behind a head, and in front of it a head with the copy's length.
fn copy_behind(head: Head, section: &[u8], out: &mut [u8]) -> CopiedRecord
    requires { head.length.0 ≤ 32768 }
    ensures value { result ≡ answer_behind head (support_answer head.security_first section.now (drop 8 out.old)) }
    ensures out_after { out.new
        ≡ bytes_behind head section.now out.old
        (support_answer head.security_first section.now (drop 8 out.old)) }
{
    let size = Bytes(HEAD + head.length.0);
    let security_first = head.security_first;
    match copy_section(section, security_first, out) {
        Err(refusal) => CopiedRecord::Refused(LeftOut { size, refusal }),
        Ok(length) => {
            let bytes = head_bytes(Head {
                security_first,
                length,
            });
            copy(&bytes, out);
            CopiedRecord::Copied(RecordCopy {
                size,
                written: Bytes(HEAD + length.0),
            })
        }
    }
}

// The record at the first byte of `s`, the rest of a day's file, into a lent output: its head with the copy's length,
// and the copy. Bytes behind the section in its record do not go out. Where nothing is copied the output stays as it is.
#[tactic(auto, unfolding(crate::specs::Record::copy_record, crate::specs::Record::copy_bytes, crate::specs::Record::copy_from, crate::specs::Record::bytes_from))]
pub fn copy_record(s: &[u8], out: &mut [u8]) -> CopiedRecord
    ensures value { result ≡ copy_record s.now out.old }
    ensures out_after { out.new ≡ copy_bytes s.now out.old }
{
    match next_head(s) {
        Next::End => CopiedRecord::End,
        Next::Stop => CopiedRecord::Stop,
        Next::Found(head) => {
            let end = HEAD + head.length.0;
            copy_behind(head, &s[HEAD..end], out)
        }
    }
}
