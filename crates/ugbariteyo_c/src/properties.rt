// The properties of a section that was read.
ghost use Rattle.std.specs.Prelude.{◌≡◌};
ghost use Rattle.requests.specs.Carried.{section_properties};
ghost use Rattle.ugbariteyo.specs.Properties.{properties_answer};

use rules::section::Section;
use ugbariteyo::properties::UgbProperties;

#[unsafe(no_mangle)]
pub extern "C" fn ugb_properties_of(section: Section) -> UgbProperties
    ensures { result ≡ properties_answer (section_properties section) }
{
    ugbariteyo::properties::ugb_properties_of(section)
}
