// Reading a section, and whether two have the same summary.
ghost use Rattle.std.specs.Prelude.{◌≡◌, true};
ghost use Rattle.rules.specs.Reading.{read, SameSummary};
ghost use Rattle.ugbariteyo.specs.Section.{reading_answer};

use ugbariteyo::section::UgbReading;

#[unsafe(no_mangle)]
pub extern "C" fn ugb_read(s: &[u8], security_first: bool) -> UgbReading
    ensures { result ≡ reading_answer (read security_first s.now) }
{
    ugbariteyo::section::ugb_read(s, security_first)
}

#[unsafe(no_mangle)]
pub extern "C" fn ugb_same_summary(a: &[u8], b: &[u8], security_first: bool) -> bool
    ensures { (result ≡ true → SameSummary security_first a.now b.now)
        × (SameSummary security_first a.now b.now → result ≡ true) }
{
    ugbariteyo::section::ugb_same_summary(a, b, security_first)
}
