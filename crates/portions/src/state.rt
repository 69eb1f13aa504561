// The state of a section that comes in portions: what is kept of all bytes so far, whatever the section's length.
ghost use Rattle.std.specs.Prelude.{◌≡◌, []};
ghost use Rattle.portions.specs.State.{state_of};

use crate::name::NameProgress;
use crate::place::{Places, places_at_start};
use octets::count::{Bytes, Units};

// What is counted and judged. (By itself, so that a portion moves no more than this: the bytes are lent.)
#[repr(C)]
#[derive(Clone, Copy)]
pub struct Progress {
    pub security_first: bool,
    pub finished: bool,
    pub received: Bytes,
    pub places: Places,
    pub name: NameProgress,
}

// The SecurityHeader's fixed bytes and the first two of its identity; the provider's type; the MessagePropertiesHeader's
// fixed bytes and a label of at most 250 units. A byte that has not come is 0.
#[repr(C)]
#[derive(Clone, Copy)]
pub struct State {
    pub progress: Progress,
    pub head: [u8; 18],
    pub provider_type: [u8; 4],
    pub properties: [u8; 556],
}

// Before any byte has come.
pub fn start(security_first: bool) -> State
    ensures { result ≡ state_of security_first [] }
{
    State {
        progress: Progress {
            security_first,
            finished: false,
            received: Bytes(0),
            places: places_at_start(security_first),
            name: NameProgress::default(),
        },
        head: [0u8; 18],
        provider_type: [0u8; 4],
        properties: [0u8; 556],
    }
}
