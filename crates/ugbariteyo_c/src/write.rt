// The section writer: a struct that holds a slice does not cross.
ghost use Rattle.std.specs.Prelude.{◌≡◌};
ghost use Rattle.writing.specs.Given.{lent_given};
ghost use Rattle.writing.specs.Writing.{write_answer, write_bytes};
ghost use Rattle.ugbariteyo.specs.Output.{output_answer};

use ugbariteyo::output::UgbOutput;
use writing::values::SectionValues;

#[unsafe(no_mangle)]
pub extern "C" fn ugb_write_section_positional(
    values: SectionValues,
    sender_id: &[u8],
    encryption_key: &[u8],
    signature: &[u8],
    sender_cert: &[u8],
    provider_info: &[u8],
    label: &[u8],
    extension: &[u8],
    body: &[u8],
    out: &mut [u8],
) -> UgbOutput
    ensures value { result ≡ output_answer (write_answer (lent_given values sender_id encryption_key signature
        sender_cert provider_info label extension body) out.old) }
    ensures out_after { out.new ≡ write_bytes (lent_given values sender_id encryption_key signature
        sender_cert provider_info label extension body) out.old }
{
    ugbariteyo::write::ugb_write_section_positional(
        values,
        sender_id,
        encryption_key,
        signature,
        sender_cert,
        provider_info,
        label,
        extension,
        body,
        out,
    )
}
