// A line behind those that an output holds.
ghost use Rattle.std.specs.Prelude.{◌≡◌};
ghost use Rattle.records.specs.Line.{append_answer, append_bytes};

use crate::line::{LINE_ROOM, Row, put_row};
use crate::piece::put_word;
use octets::count::Bytes;
use rules::refusal::Refusal;
use rules::section::output_short;

// Puts the line behind the first `used` bytes of the output, and answers how many are used then; 13 where it does not
// fit, and the output stays. With room for any line it is put where it belongs; else beside the output, until its length
// is known. (The count stays the caller's, who hands the output on in between.)
pub fn append_line(row: Row, out: &mut [u8], used: Bytes) -> Result<Bytes, Refusal>
    ensures value { result ≡ append_answer row used.0 out.old }
    ensures out_after { out.new ≡ append_bytes row used.0 out.old }
{
    if out.len() < used.0 {
        return output_short();
    }
    let room = out.len() - used.0;
    if LINE_ROOM <= room {
        return Ok(Bytes(used.0 + put_row(row, &mut out[used.0..]).0));
    }
    let mut text = [0u8; LINE_ROOM];
    let length = put_row(row, &mut text).0;
    if room < length {
        return output_short();
    }
    Ok(Bytes(used.0 + put_word(&text[..length], &mut out[used.0..]).0))
}
