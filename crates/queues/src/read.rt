// Reading an image: every step first, then the image that passed them.
ghost use Rattle.std.specs.Prelude.{◌≡◌};
ghost use Rattle.rules.specs.Refusal.{number_of};
ghost use Rattle.queues.specs.Read.{format_of, image_steps, part_at, read_image};

use crate::format::QueueFormat;
use crate::image::Image;
use crate::steps::{fixed_size, format_steps, text_steps};
use octets::count::Bytes;
use octets::number::u8_at;
use rules::layout::part;
use rules::refusal::{Cause, Refusal};
use rules::section::Part;

#[tactic(auto, unfolding(crate::specs::Read::format_of))]
fn format_of(s: &[u8]) -> QueueFormat
    ensures { result ≡ format_of s.now }
{
    QueueFormat::new(u8_at(s, Bytes(0)), u8_at(s, Bytes(1)))
}

// 1, then 30 to 33
#[tactic(auto, unfolding(crate::specs::Read::image_steps, rules::specs::Refusal::first_of, rules::specs::Refusal::number_of, rules::specs::Refusal::number))]
fn image_steps(s: &[u8]) -> Result<(), Cause>
    ensures { number_of result ≡ image_steps s.now }
{
    if s.len() < 4 {
        return Err(Cause::InputShort);
    }
    let format = format_of(s);
    format_steps(format)?;
    let at = 4 + fixed_size(format.kind).0;
    if s.len() < at {
        return Err(Cause::QueueValue);
    }
    text_steps(format.kind, &s[at..])
}

// So many bytes from `start`; no bytes are at 0.
#[tactic(auto, unfolding(crate::specs::Read::part_at))]
fn part_at(start: Bytes, length: Bytes) -> Part
    ensures { result ≡ part_at start.0 length.0 }
{
    if length.0 == 0 {
        return part(Bytes(0), Bytes(0));
    }
    part(start, length)
}

// Reads the input, which is exactly one image.
pub fn read_image(s: &[u8]) -> Result<Image, Refusal>
    ensures { result ≡ read_image s.now }
{
    image_steps(s).map_err(Refusal::at_start)?;
    let format = format_of(s);
    let fixed = fixed_size(format.kind);
    let at = 4 + fixed.0;
    Ok(Image {
        format,
        fixed: part_at(Bytes(4), fixed),
        text: part_at(Bytes(at), Bytes(s.len() - at)),
    })
}
