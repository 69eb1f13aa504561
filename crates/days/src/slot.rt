// A slot of the table: the values of a record's listing line, each at its place.
ghost use Rattle.std.specs.Prelude.{◌≡◌};
ghost use Rattle.days.specs.Slot.{slot_of};

use records::record::Line;
use rules::refusal::Refusal;

// The values of a refused section: the refusal. They are 0 where it is accepted.
pub const NUMBER: usize = 0;

pub const PLACE: usize = 1;

// The values of an accepted section: the listing's columns. They are 0 where it is refused.
pub const MESSAGE_CLASS: usize = 2;

pub const LABEL_LENGTH: usize = 3;

pub const EXTENSION_SIZE: usize = 4;

pub const MESSAGE_SIZE: usize = 5;

pub const SECTION_LENGTH: usize = 6;

// How many values a slot has.
pub const VALUES: usize = 7;

// Seven counts, the bytes that C has (its first two are a refusal there, and no byte is left between them). Told by their
// places and not by name, since the places are what C reads: so the order is promised too.
#[repr(C)]
#[derive(Clone, Copy, Default)]
pub struct Slot(pub [usize; VALUES]);

// What a record's answer leaves in its slot.
#[tactic(auto, unfolding(crate::specs::Slot::slot_of, crate::specs::Slot::accepted_slot, crate::specs::Slot::refused_slot))]
pub fn slot_of(answer: Result<Line, Refusal>) -> Slot
    ensures { result ≡ slot_of answer }
{
    let mut values = [0; VALUES];
    match answer {
        Ok(line) => {
            values[MESSAGE_CLASS] = line.message_class as usize;
            values[LABEL_LENGTH] = line.label_length.0 as usize;
            values[EXTENSION_SIZE] = line.extension_size.0;
            values[MESSAGE_SIZE] = line.message_size.0;
            values[SECTION_LENGTH] = line.section_length.0;
        }
        Err(refusal) => {
            values[NUMBER] = refusal.number as usize;
            values[PLACE] = refusal.place.0;
        }
    }
    Slot(values)
}
