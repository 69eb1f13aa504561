// The fields and parts of a section, by number in the order of their bytes; then the two headers.
ghost use Rattle.std.specs.Prelude.{◌≡◌};
ghost use Rattle.fields.specs.Field.{field};

use octets::count::Bytes;

// The field that holds a byte, and the byte's offset in it. (C has both as they are, so the field is a number.)
#[repr(C)]
#[derive(Clone, Copy)]
pub struct FieldAt {
    pub field: u32,
    pub offset: Bytes,
}

impl FieldAt {
    pub(crate) fn new(number: u32, offset: Bytes) -> Self
        ensures { result ≡ field number offset.0 }
    {
        FieldAt {
            field: number,
            offset,
        }
    }

    pub(crate) fn none() -> Self
        ensures { result ≡ field 0 0 }
    {
        FieldAt::new(NONE, Bytes(0))
    }
}

// Where there is no such byte.
pub const NONE: u32 = 0;

pub const SECURITY_FLAGS: u32 = 1;

pub const SENDER_ID_SIZE: u32 = 2;

pub const ENCRYPTION_KEY_SIZE: u32 = 3;

pub const SIGNATURE_SIZE: u32 = 4;

pub const SENDER_CERT_SIZE: u32 = 5;

pub const PROVIDER_INFO_SIZE: u32 = 6;

pub const SENDER_ID: u32 = 7;

pub const SENDER_ID_PADDING: u32 = 8;

pub const ENCRYPTION_KEY: u32 = 9;

pub const ENCRYPTION_KEY_PADDING: u32 = 10;

pub const SIGNATURE: u32 = 11;

pub const SIGNATURE_PADDING: u32 = 12;

pub const SENDER_CERT: u32 = 13;

pub const SENDER_CERT_PADDING: u32 = 14;

pub const PROVIDER_TYPE: u32 = 15;

pub const PROVIDER_NAME: u32 = 16;

pub const PROVIDER_INFO_PADDING: u32 = 17;

pub const FLAGS: u32 = 18;

pub const LABEL_LENGTH: u32 = 19;

pub const MESSAGE_CLASS: u32 = 20;

pub const CORRELATION_ID: u32 = 21;

pub const BODY_TYPE: u32 = 22;

pub const APPLICATION_TAG: u32 = 23;

pub const MESSAGE_SIZE: u32 = 24;

pub const ALLOCATION_BODY_SIZE: u32 = 25;

pub const PRIVACY_LEVEL: u32 = 26;

pub const HASH_ALGORITHM: u32 = 27;

pub const ENCRYPTION_ALGORITHM: u32 = 28;

pub const EXTENSION_SIZE: u32 = 29;

pub const LABEL: u32 = 30;

pub const EXTENSION: u32 = 31;

pub const BODY: u32 = 32;

pub const PADDING: u32 = 33;

pub const SECURITY_HEADER: u32 = 34;

pub const MESSAGE_PROPERTIES_HEADER: u32 = 35;
