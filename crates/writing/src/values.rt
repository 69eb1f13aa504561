// What the section writer is given: values, and the parts beside them.
use octets::count::Bytes;
use rules::section::CorrelationId;

// The values of a full reading. The sizes come from the parts.
#[repr(C)]
#[derive(Clone, Copy)]
pub struct SectionValues {
    pub security_first: bool,
    pub security_flags: u16,
    pub flags: u8,
    pub message_class: u16,
    pub body_type: u32,
    pub application_tag: u32,
    pub allocation_body_size: Bytes,
    pub privacy_level: u32,
    pub hash_algorithm: u32,
    pub encryption_algorithm: u32,
    pub correlation_id: CorrelationId,
}

// Without a SecurityHeader its values and parts are ignored.
#[derive(Clone, Copy)]
pub struct SectionGiven<'a> {
    pub values: SectionValues,
    pub sender_id: &'a [u8],
    pub encryption_key: &'a [u8],
    pub signature: &'a [u8],
    pub sender_cert: &'a [u8],
    pub provider_info: &'a [u8],
    pub label: &'a [u8],
    pub extension: &'a [u8],
    pub body: &'a [u8],
}
