// Images of queue formats, read and written.
ghost use Rattle.std.specs.Prelude.{◌≡◌};
ghost use Rattle.queues.specs.Read.{read_image};
ghost use Rattle.queues.specs.Write.{write_answer, write_bytes};
ghost use Rattle.ugbariteyo.specs.Output.{output_answer};
ghost use Rattle.ugbariteyo.specs.Queue.{image_answer, WrittenAgain};

use crate::output::UgbOutput;
use crate::zero::no_refusal;
use queues::format::QueueFormat;
use queues::image::Image;
use queues::read::read_image;
use queues::write::write_image;
use rules::refusal::Refusal;
use rules::section::Part;

#[repr(C)]
#[derive(Clone, Copy, Default)]
pub struct UgbImageRead {
    pub refusal: Refusal,
    pub format: QueueFormat,
    pub fixed: Part,
    pub text: Part,
}

pub fn ugb_read_image(s: &[u8]) -> UgbImageRead
    ensures value { result ≡ image_answer (read_image s.now) }
    ensures written_again { WrittenAgain s.now result }
{
    // each arm fills the answer in place: with one value for both it is moved
    match read_image(s) {
        Err(refusal) => {
            return UgbImageRead {
                refusal,
                ..UgbImageRead::default()
            };
        }
        Ok(image) => {
            return UgbImageRead {
                refusal: no_refusal(),
                format: image.format,
                fixed: image.fixed,
                text: image.text,
            };
        }
    }
}

pub fn ugb_write_image(format: QueueFormat, fixed: &[u8], text: &[u8], out: &mut [u8]) -> UgbOutput
    ensures value { result ≡ output_answer (write_answer format fixed.now text.now out.old) }
    ensures out_after { out.new ≡ write_bytes format fixed.now text.now out.old }
{
    UgbOutput::from(write_image(format, fixed, text, out))
}
