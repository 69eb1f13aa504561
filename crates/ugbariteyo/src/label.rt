// The label for display. A part of the input cannot be returned to C, so the answer says which part it is.
ghost use Rattle.std.specs.Prelude.{◌≡◌, List, ℕ};
ghost use Rattle.rules.specs.Reading.{label_shown, summarize};
ghost use Rattle.ugbariteyo.specs.Label.{bytes_shown, label_answer};

use reading::label::label_part;
use rules::section::Part;

// Whether the caller's stand-in is shown; else the part of the input that is.
#[repr(C)]
#[derive(Clone, Copy)]
pub struct UgbLabel {
    pub stand_in: bool,
    pub part: Part,
}

pub fn ugb_label_shown(s: &[u8], security_first: bool) -> UgbLabel
    ensures value { result ≡ label_answer (summarize security_first s.now) }
    ensures by_index { (stand_in : List ℕ) → bytes_shown s.now stand_in result ≡ label_shown security_first s.now stand_in }
{
    let label = label_part(s, security_first);
    UgbLabel {
        stand_in: label.length.0 == 0,
        part: label,
    }
}
