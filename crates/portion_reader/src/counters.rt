// What is counted and judged, as the numbers that C lends: to C they are an array of ten. (By value they would be copied in
// and out at each portion, and what was just written in small pieces is slow to copy in large ones.)
ghost use Rattle.std.specs.Prelude.{◌≡◌};
ghost use Rattle.portion_reader.specs.Counters.{counters_of, progress_of};

use octets::count::{Bytes, Units};
use portions::name::NameProgress;
use portions::place::Places;
use portions::state::Progress;

// A yes is 1, and any number but 0 is one.
#[repr(C)]
#[derive(Clone, Copy)]
pub struct Counters {
    pub security_first: usize,
    pub finished: usize,
    pub received: usize,
    pub name_at: usize,
    pub name_size: usize,
    pub properties_at: usize,
    pub name_units: usize,
    pub name_ended: usize,
    pub name_odd: usize,
    pub name_low: usize,
}

impl Counters {
    #[tactic(auto, unfolding(crate::specs::Counters::progress_of))]
    pub(crate) fn progress(&self) -> Progress
        ensures { result ≡ progress_of self.now }
    {
        Progress {
            security_first: self.security_first != 0,
            finished: self.finished != 0,
            received: Bytes(self.received),
            places: Places {
                name_at: Bytes(self.name_at),
                name_size: Bytes(self.name_size),
                properties_at: Bytes(self.properties_at),
            },
            name: NameProgress {
                units: Units((self.name_units % 4294967296) as u32),
                ended: self.name_ended != 0,
                odd: self.name_odd != 0,
                low: (self.name_low % 256) as u8,
            },
        }
    }
}

impl From<Progress> for Counters {
    #[tactic(auto, unfolding(crate::specs::Counters::counters_of))]
    fn from(progress: Progress) -> Self
        ensures { result ≡ counters_of progress }
    {
        let places = progress.places;
        let name = progress.name;
        Counters {
            security_first: usize::from(progress.security_first),
            finished: usize::from(progress.finished),
            received: progress.received.0,
            name_at: places.name_at.0,
            name_size: places.name_size.0,
            properties_at: places.properties_at.0,
            name_units: name.units.0 as usize,
            name_ended: usize::from(name.ended),
            name_odd: usize::from(name.odd),
            name_low: usize::from(name.low),
        }
    }
}
