// The summary, a value to a line, by the papers' names. Nothing private is among them.
use crate::page::Page;
use crate::properties::properties;
use crate::security::security;
use rules::section::Summary;

// The summary of the section that was read from `s`.
pub(crate) fn summary(page: &mut Page, s: &[u8], m: &Summary) {
    page.number("section length: ", m.parts.section_length.0);
    page.yes_or_no("SecurityHeader first: ", m.security_first);
    page.yes_or_no("authentication fails: ", m.authentication_fails);
    page.yes_or_no("decryption fails: ", m.decryption_fails);
    page.yes_or_no("retired: ", m.retired);
    security(page, s, m.security);
    properties(page, s, m.properties, m.parts);
}
