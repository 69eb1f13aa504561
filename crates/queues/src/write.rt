// Writing an image.
ghost use Rattle.std.specs.Prelude.{◌≡◌, [], ◌++◌, ◌+◌, ◌≤◌, length};
ghost use Rattle.octets.specs.Over.{over};
ghost use Rattle.rules.specs.Refusal.{number_of};
ghost use Rattle.queues.specs.Write.{image_bytes, write_answer, write_bytes, write_steps};

use crate::format::QueueFormat;
use crate::steps::{fixed_size, format_steps, text_steps};
use octets::count::Bytes;
use octets::over::copy;
use rules::refusal::{Cause, Refusal};
use rules::section::output_short;

// 30 to 33
#[tactic(auto, unfolding(crate::specs::Write::write_steps, rules::specs::Refusal::first_of, rules::specs::Refusal::number_of, rules::specs::Refusal::number))]
fn write_steps(format: QueueFormat, fixed: &[u8], text: &[u8]) -> Result<(), Cause>
    ensures { number_of result ≡ write_steps format fixed.now text.now }
{
    format_steps(format)?;
    if fixed.len() != fixed_size(format.kind).0 {
        return Err(Cause::QueueValue);
    }
    text_steps(format.kind, text)
}

fn put_image(format: QueueFormat, fixed: &[u8], text: &[u8], out: &mut [u8])
    requires { 4 + length fixed.now + length text.now ≤ length out.old }
    ensures { out.new ≡ over (image_bytes format (fixed.now ++ text.now)) out.old }
{
    copy(&[format.kind, format.suffix_and_flags, 0, 0], out);
    copy(fixed, &mut out[4..]);
    copy(text, &mut out[4 + fixed.len()..]);
}

// Writes the image of a value: its fixed bytes (GUID, OBJECTID or MULTICAST_ID) and its string, each empty where the
// type has none. Refused, the output stays as it is. (C lends the three one by one; a struct of them would be no plainer.)
pub fn write_image(
    format: QueueFormat,
    fixed: &[u8],
    text: &[u8],
    out: &mut [u8],
) -> Result<Bytes, Refusal>
    ensures value { result ≡ write_answer format fixed.now text.now out.old }
    ensures out_after { out.new ≡ write_bytes format fixed.now text.now out.old }
{
    write_steps(format, fixed, text).map_err(Refusal::at_start)?;
    let length = 4 + fixed.len() + text.len();
    if out.len() < length {
        return output_short();
    }
    put_image(format, fixed, text, out);
    Ok(Bytes(length))
}
