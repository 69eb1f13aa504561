// Writing a MessagePropertiesHeader: its fields, the steps on them, its fixed bytes and its parts.
ghost use Rattle.std.specs.Prelude.{◌≡◌, [], ◌++◌, ◌+◌, ◌≤◌, length};
ghost use Rattle.octets.specs.Over.{over};
ghost use Rattle.octets.specs.Padding.{padded};
ghost use Rattle.rules.specs.Refusal.{number_of};
ghost use Rattle.writing.specs.Fixed.{PropertiesSized, properties_head, properties_tail};
ghost use Rattle.writing.specs.Given.{fixed, lent, properties_given};
ghost use Rattle.writing.specs.Laid.{unpadded_length};
ghost use Rattle.writing.specs.Writing.{end_number, properties_bytes};

use crate::field::write_field;
use crate::values::SectionGiven;
use octets::count::{Bytes, Units};
use octets::number::{u16_bytes, u32_bytes};
use octets::over::{copy, zero};
use octets::padding::padding;
use rules::properties::{
    LABEL_UNITS, PropertiesFields, label_contents, properties_steps, section_end,
};
use rules::refusal::Cause;
use rules::section::{CorrelationId, LIMIT};

#[tactic(auto, unfolding(crate::specs::Given::properties_from))]
pub(crate) fn properties_given(given: &SectionGiven<'_>) -> PropertiesFields
    requires { length given.now.label.now ≤ 500 }
    ensures { result ≡ properties_given (lent given.now) }
{
    let values = given.values;
    PropertiesFields {
        flags: values.flags % 16,
        label_length: Bytes(given.label.len()).units(),
        message_class: values.message_class,
        body_type: values.body_type,
        message_size: Bytes(given.body.len()),
        allocation_body_size: values.allocation_body_size,
        privacy_level: values.privacy_level,
        hash_algorithm: values.hash_algorithm,
        encryption_algorithm: values.encryption_algorithm,
        extension_size: Bytes(given.extension.len()),
    }
}

// P2 to P5 and P7, for a header at `at`. A label of more bytes than P2 has units for is refused before they are
// counted, so that the count is that of its bytes.
#[tactic(auto, unfolding(crate::specs::Given::properties_from, crate::specs::Writing::end_number, rules::specs::Refusal::first_of, rules::specs::Refusal::number_of, rules::specs::Refusal::number))]
pub(crate) fn properties_number(given: &SectionGiven<'_>, at: Bytes) -> Result<(), Cause>
    ensures { number_of result ≡ end_number at.0 (properties_given (lent given.now)) given.now.label.now }
{
    let label = given.label;
    if label.len() % 2 != 0 {
        return Err(Cause::LabelLength);
    }
    if Units(LABEL_UNITS).bytes().0 < label.len() {
        return Err(Cause::LabelLength);
    }
    let fields = properties_given(given);
    properties_steps(fields)?;
    if LIMIT < section_end(fields, at).0 {
        return Err(Cause::AboveTheLimit);
    }
    label_contents(label)
}

// The bytes 0 to 31. (`PropertiesSized` stays a clause: C's values and any parts may be larger, and are refused.)
fn write_properties_head(
    f: PropertiesFields,
    correlation_id: CorrelationId,
    application_tag: u32,
    out: &mut [u8],
)
    requires properties_sized { PropertiesSized f }
    requires in_bounds { 32 ≤ length out.old }
    ensures { out.new
        ≡ over (properties_head (fixed f correlation_id application_tag)) out.old }
{
    write_field(out, Bytes(0), [f.flags]);
    write_field(out, Bytes(1), [f.label_length.0 as u8]);
    write_field(out, Bytes(2), u16_bytes(f.message_class));
    write_field(out, Bytes(4), correlation_id);
    write_field(out, Bytes(24), u32_bytes(f.body_type));
    write_field(out, Bytes(28), u32_bytes(application_tag));
}

// The bytes 32 to 55, to an output that begins at them.
fn write_properties_tail(f: PropertiesFields, out: &mut [u8])
    requires properties_sized { PropertiesSized f }
    requires in_bounds { 24 ≤ length out.old }
    ensures { out.new ≡ over (properties_tail (fixed f [] 0)) out.old }
{
    write_field(out, Bytes(0), u32_bytes(f.message_size.0 as u32));
    write_field(out, Bytes(4), u32_bytes(f.allocation_body_size.0 as u32));
    write_field(out, Bytes(8), u32_bytes(f.privacy_level));
    write_field(out, Bytes(12), u32_bytes(f.hash_algorithm));
    write_field(out, Bytes(16), u32_bytes(f.encryption_algorithm));
    write_field(out, Bytes(20), u32_bytes(f.extension_size.0 as u32));
}

// The parts, with nothing between them, each lent the output behind the last.
fn write_properties_parts(label: &[u8], extension: &[u8], body: &[u8], out: &mut [u8])
    requires { length label.now + length extension.now + length body.now ≤ length out.old }
    ensures { out.new
        ≡ over (label.now ++ (extension.now ++ body.now)) out.old }
{
    let extension_at = label.len();
    let body_at = extension_at + extension.len();
    copy(label, out);
    copy(extension, &mut out[extension_at..]);
    copy(body, &mut out[body_at..]);
}

// The header, where the output has room for it.
#[tactic(auto, unfolding(octets::specs::Padding::padded))]
pub(crate) fn write_properties(given: &SectionGiven<'_>, out: &mut [u8])
    requires label_bound { length given.now.label.now ≤ 500 }
    requires properties_sized { PropertiesSized (properties_given (lent given.now)) }
    requires body_in_bounds { padded 4 (unpadded_length (lent given.now)) ≤ length out.old }
    ensures { out.new ≡ over (properties_bytes (lent given.now)) out.old }
{
    let fields = properties_given(given);
    let size = 56 + given.label.len() + given.extension.len() + given.body.len();
    let zeros = padding(Bytes(size)).0;
    write_properties_head(
        fields,
        given.values.correlation_id,
        given.values.application_tag,
        out,
    );
    write_properties_tail(fields, &mut out[32..]);
    write_properties_parts(given.label, given.extension, given.body, &mut out[56..]);
    zero(&mut out[size..size + zeros]);
}
