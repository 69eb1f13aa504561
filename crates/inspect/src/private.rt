// What the full reading adds to the summary, all of it private.
use crate::page::Page;
use reading::view::part_of;
use rules::section::Section;

pub(crate) fn private(page: &mut Page, s: &[u8], r: Section) {
    let security = r.summary.security.parts;
    let properties = r.summary.parts;
    page.bytes("CorrelationID: ", part_of(s, r.correlation_id));
    page.number("ApplicationTag: ", r.application_tag);
    page.bytes("identity bytes: ", part_of(s, security.sender_id));
    page.bytes("key bytes: ", part_of(s, security.encryption_key));
    page.bytes("signature bytes: ", part_of(s, security.signature));
    page.bytes("certificate bytes: ", part_of(s, security.sender_cert));
    page.bytes("extension bytes: ", part_of(s, properties.extension));
    page.bytes("body bytes: ", part_of(s, properties.body));
}
