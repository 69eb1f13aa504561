// Whether two inputs have the same summary: what a caller needs to use demand 3.
ghost use Rattle.std.specs.Prelude.{◌≡◌, true, ◌≤◌};
ghost use Rattle.rules.specs.Reading.{SameSummary, judge};
ghost use Rattle.rules.specs.Refusal.{limit};
ghost use Rattle.reading.specs.Same.{SameContents, SameHeader};

use crate::properties::{fields_at, label_at};
use crate::section::{base_judge, header_at};
use crate::view::part_of;
use octets::same::same;
use rules::properties::PropertiesFields;
use rules::security::{SecurityHeader, provider_name};

// (No `==` of the whole: the parts follow from the fields, as `SameHeader` has it.)
fn same_header(a: SecurityHeader, b: SecurityHeader) -> bool
    ensures { (result ≡ true → SameHeader a b) × (SameHeader a b → result ≡ true) }
{
    a.fields == b.fields
        && a.sid_revision == b.sid_revision
        && a.sid_sub_authority_count == b.sid_sub_authority_count
        && a.provider_type == b.provider_type
}

// Label and provider name, by content.
fn same_contents(
    a: &[u8],
    g: SecurityHeader,
    p: PropertiesFields,
    b: &[u8],
    h: SecurityHeader,
    q: PropertiesFields,
) -> bool
    requires length_le_limit { g.parts.length.0 ≤ limit }
    requires length_le_limit_2 { h.parts.length.0 ≤ limit }
    ensures { (result ≡ true → SameContents g p a.now h q b.now)
        × (SameContents g p a.now h q b.now → result ≡ true) }
{
    if !same(
        label_at(a, p, g.parts.length),
        label_at(b, q, h.parts.length),
    ) {
        return false;
    }
    let name = provider_name(part_of(a, g.parts.provider_info));
    same(name, provider_name(part_of(b, h.parts.provider_info)))
}

// The summaries of two sections that passed every step.
fn same_accepted(a: &[u8], b: &[u8], security_first: bool) -> bool
    requires a_value { (judge security_first a.now).number ≡ 0 }
    requires b_value { (judge security_first b.now).number ≡ 0 }
    ensures { (result ≡ true → SameSummary security_first a.now b.now)
        × (SameSummary security_first a.now b.now → result ≡ true) }
{
    let g = header_at(a, security_first);
    let h = header_at(b, security_first);
    if !same_header(g, h) {
        return false;
    }
    let p = fields_at(a, g.parts.length);
    let q = fields_at(b, h.parts.length);
    p == q && same_contents(a, g, p, b, h, q)
}

// Whether both inputs are accepted, with the same summary, label and provider name by content. By demand 3 that is
// so exactly when they agree in every judged bit, and exactly when their support copies are the same bytes.
pub fn same_summary(a: &[u8], b: &[u8], security_first: bool) -> bool
    ensures { (result ≡ true → SameSummary security_first a.now b.now)
        × (SameSummary security_first a.now b.now → result ≡ true) }
{
    if base_judge(a, security_first).is_err() {
        return false;
    }
    if base_judge(b, security_first).is_err() {
        return false;
    }
    same_accepted(a, b, security_first)
}
