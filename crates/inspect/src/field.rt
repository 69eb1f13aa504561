// The field that a refusal is about, in words.
use fields::field;

// No refusal is about another field than these.
pub(crate) fn name(number: u32) -> &'static str {
    match number {
        field::SECURITY_HEADER => "SecurityHeader",
        field::SECURITY_FLAGS => "SecurityHeader Flags",
        field::SENDER_ID_SIZE => "SenderIdSize",
        field::SENDER_CERT_SIZE => "SenderCertSize",
        field::PROVIDER_NAME => "provider name",
        field::MESSAGE_PROPERTIES_HEADER => "MessagePropertiesHeader",
        field::LABEL_LENGTH => "LabelLength",
        field::MESSAGE_CLASS => "MessageClass",
        field::ALLOCATION_BODY_SIZE => "AllocationBodySize",
        field::LABEL => "label",
        _ => "",
    }
}
