// A section (01's term: an optional SecurityHeader and a MessagePropertiesHeader) as reading finds it.
ghost use Rattle.std.specs.Prelude.{◌≡◌};
ghost use Rattle.rules.specs.Refusal.{refusal};

use crate::properties::{PropertiesFields, PropertiesParts};
use crate::refusal::{Cause, Refusal};
use crate::security::SecurityHeader;
use octets::count::Bytes;

// 01: a section has at most so many bytes.
pub const LIMIT: usize = 4194304;

// CorrelationID's 20 bytes.
pub type CorrelationId = [u8; 20];

// Where a part lies, in bytes, counted from the section's first byte.
#[repr(C)]
#[derive(Clone, Copy, PartialEq, Eq, Debug, Default)]
pub struct Part {
    pub start: Bytes,
    pub length: Bytes,
}

// 01's summary: every judged field, the parts and the verdicts. Label and provider name are read through their parts.
#[repr(C)]
#[derive(Clone, Copy, PartialEq, Eq, Debug, Default)]
pub struct Summary {
    pub security_first: bool,
    pub security: SecurityHeader,
    pub properties: PropertiesFields,
    pub parts: PropertiesParts,
    pub authentication_fails: bool,
    pub decryption_fails: bool,
    pub retired: bool,
}

// 01's full reading: the summary, and what else the section carries. Private parts are read through their parts.
#[repr(C)]
#[derive(Clone, Copy, PartialEq, Eq, Debug, Default)]
pub struct Section {
    pub summary: Summary,
    pub correlation_id: Part,
    pub application_tag: u32,
}

// 13
#[tactic(auto, unfolding(crate::specs::Refusal::number))]
pub fn output_short() -> Result<Bytes, Refusal>
    ensures { result ≡ Err (refusal 13 0) }
{
    Err(Refusal::at_start(Cause::OutputShort))
}
