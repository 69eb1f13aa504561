// MessagePropertiesHeader: its fields, its parts, where the section ends, and the steps P2 to P4 and P7.
ghost use Rattle.std.specs.Prelude.{◌≡◌, ◌+◌, min};
ghost use Rattle.rules.specs.Properties.{bad_allocation, label_contents, properties_length, properties_steps};
ghost use Rattle.rules.specs.Refusal.{limit, number_of};

use crate::class::is_listed;
use crate::layout::{larger, padded};
use crate::refusal::Cause;
use crate::section::{LIMIT, Part};
use octets::count::{Bytes, Units};
use octets::text::is_text;

// P2: a label has at most so many units.
pub const LABEL_UNITS: u32 = 250;

// The judged fields of the 56 fixed bytes. Of Flags the low four bits: the four X bits are private.
#[repr(C)]
#[derive(Clone, Copy, PartialEq, Eq, Debug, Default)]
pub struct PropertiesFields {
    pub flags: u8,
    pub label_length: Units,
    pub message_class: u16,
    pub body_type: u32,
    pub message_size: Bytes,
    pub allocation_body_size: Bytes,
    pub privacy_level: u32,
    pub hash_algorithm: u32,
    pub encryption_algorithm: u32,
    pub extension_size: Bytes,
}

// The three parts, and the section's length with the padding at its end.
#[repr(C)]
#[derive(Clone, Copy, PartialEq, Eq, Debug, Default)]
pub struct PropertiesParts {
    pub label: Part,
    pub extension: Part,
    pub body: Part,
    pub section_length: Bytes,
}

// P4, also for a request
pub fn bad_allocation(message_size: Bytes, allocation: Bytes) -> bool
    ensures { result ≡ bad_allocation message_size.0 allocation.0 }
{
    (allocation.0 < message_size.0) | (LIMIT < allocation.0)
}

// P2 to P4
#[tactic(auto, unfolding(crate::specs::Properties::properties_steps, crate::specs::Refusal::number_of, crate::specs::Refusal::number))]
pub fn properties_steps(f: PropertiesFields) -> Result<(), Cause>
    ensures { number_of result ≡ properties_steps f }
{
    if LABEL_UNITS < f.label_length.0 {
        return Err(Cause::LabelLength);
    }
    if !is_listed(f.message_class) {
        return Err(Cause::Class);
    }
    if bad_allocation(f.message_size, f.allocation_body_size) {
        return Err(Cause::Allocation);
    }
    Ok(())
}

// Where the section ends, its MessagePropertiesHeader at `at`, but at most one byte above the limit, so that no sum
// wraps.
pub fn section_end(f: PropertiesFields, at: Bytes) -> Bytes
    ensures { result.0 ≡ min (limit + 1) (at.0 + properties_length f) }
{
    let label = f.label_length.bytes();
    let largest = larger(larger(at, label), larger(f.extension_size, f.message_size));
    if LIMIT < largest.0 {
        return Bytes(LIMIT + 1);
    }
    let size = Bytes(56 + label.0 + f.extension_size.0 + f.message_size.0);
    let end = at.0 + padded(size).0;
    if LIMIT < end {
        return Bytes(LIMIT + 1);
    }
    Bytes(end)
}

// P7
#[tactic(auto, unfolding(crate::specs::Properties::label_contents, crate::specs::Properties::label_text, crate::specs::Refusal::number_of, crate::specs::Refusal::number))]
pub fn label_contents(label: &[u8]) -> Result<(), Cause>
    ensures { number_of result ≡ label_contents label.now }
{
    if label.len() == 0 {
        return Ok(());
    }
    if !is_text(label) {
        return Err(Cause::Label);
    }
    Ok(())
}
