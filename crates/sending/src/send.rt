// The sender: a request checked and given its defaults, then written as a section.
ghost use Rattle.std.specs.Prelude.{◌≡◌, ◌≤◌, length};
ghost use Rattle.requests.specs.Request.{send_request};
ghost use Rattle.writing.specs.Writing.{write_answer, write_bytes};
ghost use Rattle.sending.specs.Send.{info_of, send_answer, send_bytes, with_info};

use crate::units::{fit, write_label, write_provider_info};
use crate::values::section_values;
use defaulting::defaulted::defaulted;
use octets::count::Bytes;
use requests::request::RequestGiven;
use rules::refusal::Refusal;
use writing::section::write_section;
use writing::values::SectionGiven;

// The section with the request's provider info, made in an array of N bytes.
fn write_with<const N: usize>(
    given: &RequestGiven<'_>,
    section: &SectionGiven<'_>,
    out: &mut [u8],
) -> Result<Bytes, Refusal>
    requires info_in_bounds { length (info_of given.now) ≤ N }
    requires size_bound { N ≤ 2054 }
    ensures value { result ≡ write_answer (with_info given.now section.now) out.old }
    ensures out_after { out.new ≡ write_bytes (with_info given.now section.now) out.old }
{
    let mut info = [0u8; N];
    let size = write_provider_info(given, &mut info).0;
    write_section(
        &SectionGiven {
            provider_info: &info[..size],
            ..*section
        },
        out,
    )
}

// A name of up to 61 units, as most are, takes a short array, so that a send does not clear 2,054 bytes.
fn write_with_info(
    given: &RequestGiven<'_>,
    section: &SectionGiven<'_>,
    out: &mut [u8],
) -> Result<Bytes, Refusal>
    requires { length (info_of given.now) ≤ 2054 }
    ensures value { result ≡ write_answer (with_info given.now section.now) out.old }
    ensures out_after { out.new ≡ write_bytes (with_info given.now section.now) out.old }
{
    if given.provider_name.len() <= 61 {
        return write_with::<128>(given, section, out);
    }
    write_with::<2054>(given, section, out)
}

// Writes the section of a request at the front of the output, or refuses and writes nothing: 01's steps in their order,
// and 13 last. Bytes behind the section stay as they are.
#[tactic(auto, unfolding(crate::specs::Send::answer_after, crate::specs::Send::send_answer, crate::specs::Send::send_bytes, rules::specs::Output::writer_output))]
pub fn send(given: &RequestGiven<'_>, out: &mut [u8]) -> Result<Bytes, Refusal>
    ensures value { result ≡ send_answer (send_request given.now) out.old }
    ensures out_after { out.new ≡ send_bytes (send_request given.now) out.old }
{
    fit(given.title);
    fit(given.provider_name);
    let properties = defaulted(given)?;
    let correlation_id = given.request.correlation_id();
    let cut = given.signature.len() - properties.signature.0;
    let title_units = properties.title.0 as usize;
    let size = properties.message_size.0;
    let mut label = [0u8; 500];
    let label_size = write_label(&given.title[..title_units], &mut label).0;
    let section = SectionGiven {
        values: section_values(properties, given.security_first(), correlation_id),
        sender_id: given.sender_id,
        encryption_key: given.encryption_key,
        signature: &given.signature[cut..],
        sender_cert: given.sender_cert,
        provider_info: &[],
        label: &label[..label_size],
        extension: given.extension,
        body: &given.body[..size],
    };
    write_with_info(given, &section, out)
}
