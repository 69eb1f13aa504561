// The support copy of a section.
ghost use Rattle.std.specs.Prelude.{◌≡◌, cond, []};
ghost use Rattle.octets.specs.Over.{over};
ghost use Rattle.rules.specs.Judged.{copy_of, masked, security_mask};
ghost use Rattle.rules.specs.Reading.{header_at, summary_at};
ghost use Rattle.rules.specs.Support.{support_answer, support_bytes};
ghost use Rattle.support.specs.Laid.{HeaderLaid, SectionLaid};

use crate::header::{copy_properties, copy_security, provider_start};
use crate::placed::Placed;
use octets::count::Bytes;
use reading::properties::properties_fields;
use reading::section::judge;
use reading::security::security_fields;
use rules::properties::section_end;
use rules::refusal::Refusal;
use rules::section::output_short;

// The copy of a SecurityHeader, where one stands first.
fn copy_header(s: &[u8], security_first: bool, at: Bytes, out: &mut [u8])
    requires { HeaderLaid security_first at.0 s.now out.old }
    ensures { out.new
        ≡ over (masked (cond security_first (security_mask (header_at security_first s.now).fields) []) s.now)
        out.old }
{
    if !security_first {
        return;
    }
    let security = security_fields(s);
    copy_security(s, security, provider_start(security, at), at, out);
}

// The copy of a section that passed every step.
fn copy_section(s: &[u8], security_first: bool, section: Placed, out: &mut [u8])
    requires { SectionLaid security_first section s.now out.old }
    ensures { out.new ≡ over (copy_of (summary_at security_first s.now) s.now) out.old }
{
    let start = section.start.0;
    copy_header(s, security_first, section.start, out);
    copy_properties(
        &s[start..],
        section.properties,
        Bytes(section.end.0 - start),
        &mut out[start..],
    );
}

// Reads the section, and writes its copy where the output has room for it: else, and where reading refuses, the output
// stays as it is.
pub fn support_copy(s: &[u8], security_first: bool, out: &mut [u8]) -> Result<Bytes, Refusal>
    ensures value { result ≡ support_answer security_first s.now out.old }
    ensures out_after { out.new ≡ support_bytes security_first s.now out.old }
{
    let start = judge(s, security_first)?;
    let properties = properties_fields(s, start);
    let end = section_end(properties, start);
    if out.len() < end.0 {
        return output_short();
    }
    let section = Placed {
        start,
        properties,
        end,
    };
    copy_section(s, security_first, section, out);
    Ok(end)
}
