// The label for display.
ghost use Rattle.std.specs.Prelude.{◌≡◌};
ghost use Rattle.rules.specs.Reading.{label_shown, summarize};
ghost use Rattle.reading.specs.Label.{label_part};

use crate::properties::fields_at;
use crate::section::base_judge;
use crate::view::part_of;
use octets::count::Bytes;
use rules::layout::part;
use rules::section::Part;

// The section's own label; no bytes where LabelLength is 0 or reading is refused.
pub fn label_part(s: &[u8], security_first: bool) -> Part
    ensures { result ≡ label_part (summarize security_first s.now) }
{
    let Ok(at) = base_judge(s, security_first) else {
        return part(Bytes(0), Bytes(0));
    };
    let fields = fields_at(s, at);
    if fields.label_length.0 == 0 {
        return part(Bytes(0), Bytes(0));
    }
    part(Bytes(at.0 + 56), fields.label_length.bytes())
}

// The section's own label, or the lent stand-in where LabelLength is 0 or reading is refused.
pub fn label_shown<'a>(s: &'a [u8], security_first: bool, stand_in: &'a [u8]) -> &'a [u8]
    ensures { result.now ≡ label_shown security_first s.now stand_in.now }
{
    let label = label_part(s, security_first);
    if label.length.0 == 0 {
        return stand_in;
    }
    part_of(s, label)
}
