// The lines of what a SecurityHeader adds to the summary: all zero, and no provider name, where none stands first.
use crate::page::Page;
use reading::view::part_of;
use rules::security::{AS, AU, DE, DP, EB, SecurityFields, SecurityHeader, SecurityParts};

fn flags_and_bits(page: &mut Page, flags: u32) {
    page.code("SecurityHeader Flags: ", flags, 4);
    page.number("ST: ", flags % AU);
    page.number("AU: ", flags / AU % 2);
    page.number("EB: ", flags / EB % 2);
    page.number("DE: ", flags / DE % 2);
    page.number("DP: ", flags / DP % 2);
    page.number("AS: ", flags / AS % 16);
}

fn sizes(page: &mut Page, f: SecurityFields) {
    page.number("SenderIdSize: ", f.sender_id_size.0);
    page.number("EncryptionKeySize: ", f.encryption_key_size.0);
    page.number("SignatureSize: ", f.signature_size.0);
    page.number("SenderCertSize: ", f.sender_cert_size.0);
    page.number("ProviderInfoSize: ", f.provider_info_size.0);
}

// Behind the four bytes of the type.
fn provider_name(page: &mut Page, info: &[u8]) {
    page.text("provider name: ", info.get(4..).unwrap_or(info));
}

// The two judged bytes of an identity of ST 1, by MS-DTYP's names, and what the provider info holds.
fn contents(page: &mut Page, s: &[u8], h: SecurityHeader) {
    page.number("Revision: ", h.sid_revision);
    page.number("SubAuthorityCount: ", h.sid_sub_authority_count);
    page.number("provider type: ", h.provider_type);
    provider_name(page, part_of(s, h.parts.provider_info));
}

fn parts(page: &mut Page, p: SecurityParts) {
    page.part("identity: ", p.sender_id);
    page.part("key: ", p.encryption_key);
    page.part("signature: ", p.signature);
    page.part("certificate: ", p.sender_cert);
    page.part("provider info: ", p.provider_info);
}

pub(crate) fn security(page: &mut Page, s: &[u8], h: SecurityHeader) {
    flags_and_bits(page, h.fields.flags);
    sizes(page, h.fields);
    contents(page, s, h);
    parts(page, h.parts);
}
