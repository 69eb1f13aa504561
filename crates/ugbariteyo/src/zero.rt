// What an answer holds where there is nothing to say: of a refusal nothing else is set, and where nothing is refused
// its number is 0. (Functions over `Default`, since each contract names its definition.)
ghost use Rattle.std.specs.Prelude.{◌≡◌};
ghost use Rattle.ugbariteyo.specs.Zero.{no_refusal, no_section, no_summary};

use rules::refusal::Refusal;
use rules::section::{Section, Summary};

pub fn no_refusal() -> Refusal
    ensures { result ≡ no_refusal }
{
    Refusal::default()
}

#[tactic(auto, unfolding(crate::specs::Zero::no_summary, crate::specs::Zero::no_properties, rules::specs::Summary::summary_of, rules::specs::Summary::verdicts_of, rules::specs::Summary::authentication_fails, rules::specs::Summary::decryption_fails, rules::specs::Summary::retired, rules::specs::Summary::no_security, rules::specs::Properties::properties_fields, octets::specs::Number::le, rules::specs::Listed::listed, rules::specs::Listed::privacy_levels))]
pub fn no_summary() -> Summary
    ensures { result ≡ no_summary }
{
    Summary::default()
}

#[tactic(auto, unfolding(crate::specs::Zero::no_section, crate::specs::Zero::no_summary, crate::specs::Zero::no_properties, rules::specs::Summary::summary_of, rules::specs::Summary::verdicts_of, rules::specs::Summary::authentication_fails, rules::specs::Summary::decryption_fails, rules::specs::Summary::retired, rules::specs::Summary::no_security, rules::specs::Properties::properties_fields, octets::specs::Number::le, rules::specs::Listed::listed, rules::specs::Listed::privacy_levels))]
pub(crate) fn no_section() -> Section
    ensures { result ≡ no_section }
{
    Section::default()
}
