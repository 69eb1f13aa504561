// Reading a section, and whether two have the same summary. (Each arm returns by itself, so that its answer is made in
// place.)
ghost use Rattle.std.specs.Prelude.{◌≡◌, true};
ghost use Rattle.rules.specs.Reading.{read, SameSummary};
ghost use Rattle.ugbariteyo.specs.Section.{reading_answer};

use crate::zero::{no_refusal, no_section};
use reading::same::same_summary;
use reading::section::{ReadingCase, reading_case};
use rules::refusal::Refusal;
use rules::section::Section;

#[repr(C)]
#[derive(Clone, Copy)]
pub struct UgbReading {
    pub refusal: Refusal,
    pub section: Section,
}

pub fn ugb_read(s: &[u8], security_first: bool) -> UgbReading
    ensures { result ≡ reading_answer (read security_first s.now) }
{
    match reading_case(s, security_first) {
        ReadingCase::Refused(refusal) => {
            return UgbReading {
                refusal,
                section: no_section(),
            };
        }
        ReadingCase::WithSecurity(section) => {
            return UgbReading {
                refusal: no_refusal(),
                section,
            };
        }
        ReadingCase::WithoutSecurity(section) => {
            return UgbReading {
                refusal: no_refusal(),
                section,
            };
        }
    }
}

pub fn ugb_same_summary(a: &[u8], b: &[u8], security_first: bool) -> bool
    ensures { (result ≡ true → SameSummary security_first a.now b.now)
        × (SameSummary security_first a.now b.now → result ≡ true) }
{
    same_summary(a, b, security_first)
}
