// Images of queue formats, read and written.
ghost use Rattle.std.specs.Prelude.{◌≡◌};
ghost use Rattle.queues.specs.Read.{read_image};
ghost use Rattle.queues.specs.Write.{write_answer, write_bytes};
ghost use Rattle.ugbariteyo.specs.Output.{output_answer};
ghost use Rattle.ugbariteyo.specs.Queue.{image_answer, WrittenAgain};

use queues::format::QueueFormat;
use ugbariteyo::output::UgbOutput;
use ugbariteyo::queue::UgbImageRead;

#[unsafe(no_mangle)]
pub extern "C" fn ugb_read_image(s: &[u8]) -> UgbImageRead
    ensures value { result ≡ image_answer (read_image s.now) }
    ensures written_again { WrittenAgain s.now result }
{
    ugbariteyo::queue::ugb_read_image(s)
}

#[unsafe(no_mangle)]
pub extern "C" fn ugb_write_image(
    format: QueueFormat,
    fixed: &[u8],
    text: &[u8],
    out: &mut [u8],
) -> UgbOutput
    ensures value { result ≡ output_answer (write_answer format fixed.now text.now out.old) }
    ensures out_after { out.new ≡ write_bytes format fixed.now text.now out.old }
{
    ugbariteyo::queue::ugb_write_image(format, fixed, text, out)
}
