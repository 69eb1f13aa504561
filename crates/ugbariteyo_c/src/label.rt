// The label for display.
ghost use Rattle.std.specs.Prelude.{◌≡◌, List, ℕ};
ghost use Rattle.rules.specs.Reading.{label_shown, summarize};
ghost use Rattle.ugbariteyo.specs.Label.{bytes_shown, label_answer};

use ugbariteyo::label::UgbLabel;

#[unsafe(no_mangle)]
pub extern "C" fn ugb_label_shown(s: &[u8], security_first: bool) -> UgbLabel
    ensures value { result ≡ label_answer (summarize security_first s.now) }
    ensures by_index { (stand_in : List ℕ) → bytes_shown s.now stand_in result ≡ label_shown security_first s.now stand_in }
{
    ugbariteyo::label::ugb_label_shown(s, security_first)
}
