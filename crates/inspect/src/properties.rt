// The lines of what a MessagePropertiesHeader adds to the summary.
use crate::page::Page;
use reading::view::part_of;
use rules::properties::{PropertiesFields, PropertiesParts};

fn bits(page: &mut Page, flags: u8) {
    page.number("PA: ", flags % 2);
    page.number("PR: ", flags / 2 % 2);
    page.number("NA: ", flags / 4 % 2);
    page.number("NR: ", flags / 8 % 2);
}

fn fields(page: &mut Page, f: PropertiesFields) {
    page.code("MessagePropertiesHeader Flags: ", f.flags as u32, 2);
    bits(page, f.flags);
    page.number("LabelLength: ", f.label_length.0);
    page.code("MessageClass: ", f.message_class as u32, 4);
    page.number("BodyType: ", f.body_type);
    page.number("MessageSize: ", f.message_size.0);
    page.number("AllocationBodySize: ", f.allocation_body_size.0);
    page.number("PrivacyLevel: ", f.privacy_level);
    page.code("HashAlgorithm: ", f.hash_algorithm, 4);
    page.code("EncryptionAlgorithm: ", f.encryption_algorithm, 4);
    page.number("ExtensionSize: ", f.extension_size.0);
}

pub(crate) fn properties(page: &mut Page, s: &[u8], f: PropertiesFields, p: PropertiesParts) {
    fields(page, f);
    page.text("label text: ", part_of(s, p.label));
    page.part("label: ", p.label);
    page.part("extension: ", p.extension);
    page.part("body: ", p.body);
}
