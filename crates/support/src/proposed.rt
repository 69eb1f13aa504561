// Whether a proposed copy is the support copy of a section: compared run by run, so that no copy is made.
ghost use Rattle.std.specs.Prelude.{◌≡◌, true, cond, [], ◌↔◌, length, take};
ghost use Rattle.rules.specs.Judged.{copy_of, masked, security_mask};
ghost use Rattle.rules.specs.Reading.{header_at, summary_at};
ghost use Rattle.rules.specs.Support.{IsSupportCopy};
ghost use Rattle.support.specs.Laid.{HeaderLaid, SectionLaid};

use crate::header::{is_properties_copy, is_security_copy, provider_start};
use crate::placed::Placed;
use octets::count::Bytes;
use reading::properties::properties_fields;
use reading::section::base_judge;
use reading::security::security_fields;
use rules::properties::section_end;

// The SecurityHeader, where one stands first.
fn is_header_copy(s: &[u8], security_first: bool, at: Bytes, proposed: &[u8]) -> bool
    requires { HeaderLaid security_first at.0 s.now proposed.now }
    ensures { (result ≡ true)
        ↔ (take at.0 proposed.now
        ≡ masked (cond security_first (security_mask (header_at security_first s.now).fields) []) s.now) }
{
    if !security_first {
        return true;
    }
    let security = security_fields(s);
    is_security_copy(s, security, provider_start(security, at), at, proposed)
}

// A section that passed every step, and a proposed copy as long as it.
fn is_section_copy(s: &[u8], security_first: bool, section: Placed, proposed: &[u8]) -> bool
    requires section_laid { SectionLaid security_first section s.now proposed.now }
    requires proposed_len { length proposed.now ≡ section.end.0 }
    ensures { (result ≡ true) ↔ (proposed.now ≡ copy_of (summary_at security_first s.now) s.now) }
{
    let start = section.start.0;
    if !is_header_copy(s, security_first, section.start, proposed) {
        return false;
    }
    is_properties_copy(
        &s[start..],
        section.properties,
        Bytes(section.end.0 - start),
        &proposed[start..],
    )
}

// Whether the section is accepted, and the proposed copy is byte for byte its support copy.
pub fn is_support_copy(s: &[u8], security_first: bool, proposed: &[u8]) -> bool
    ensures { (result ≡ true) ↔ IsSupportCopy security_first s.now proposed.now }
{
    let Ok(start) = base_judge(s, security_first) else {
        return false; // a refused section has no copy
    };
    let properties = properties_fields(s, start);
    let end = section_end(properties, start);
    if proposed.len() != end.0 {
        return false;
    }
    let section = Placed {
        start,
        properties,
        end,
    };
    is_section_copy(s, security_first, section, proposed)
}
