// Reading a section: every step first, then the summary and the full reading of what passed them.
ghost use Rattle.std.specs.Prelude.{◌≡◌, ◌+◌, ◌^◌, ◌≤◌, ◌<◌, drop, length};
ghost use Rattle.octets.specs.Number.{le};
ghost use Rattle.rules.specs.Properties.{properties_fields, properties_parts};
ghost use Rattle.rules.specs.Reading.{base_judge, header_at, judge, read, security_number, start_at, summarize, summary_at};
ghost use Rattle.rules.specs.Refusal.{judged_of, number, number_of, refusal};
ghost use Rattle.rules.specs.Summary.{section_of, summary_of, verdicts_of};
ghost use Rattle.reading.specs.Case.{judged_once, reading_case};
ghost use Rattle.reading.specs.Fields.{PropertiesSizes, start_read};

use crate::field::u32_in;
use crate::properties::{
    fields_at, label_at, properties_fields, properties_parts, properties_steps_of,
};
use crate::security::{
    header_length, no_security, provider_info, security_fields, security_header, security_steps_of,
};
use octets::count::Bytes;
use rules::layout::part;
use rules::place::section_refusal;
use rules::properties::PropertiesFields;
use rules::refusal::{Cause, Failed, Refusal};
use rules::section::{Section, Summary};
use rules::security::{SecurityHeader, security_length};
use rules::verdict::{Verdicts, verdicts_of};

// Where the MessagePropertiesHeader of an accepted section begins; at most one byte above the limit, on any input.
#[tactic(auto, unfolding(crate::specs::Fields::start_read))]
pub fn properties_start(s: &[u8], security_first: bool) -> Bytes
    ensures { result.0 ≡ start_read security_first s.now }
{
    if security_first {
        return security_length(security_fields(s));
    }
    Bytes(0)
}

// S1 to S11, where a SecurityHeader stands first.
#[inline(always)]
#[tactic(auto, unfolding(rules::specs::Reading::security_number, rules::specs::Refusal::number_of, rules::specs::Refusal::number))]
fn header_steps(s: &[u8], security_first: bool) -> Result<(), Cause>
    ensures { number_of result ≡ security_number security_first s.now }
{
    if security_first {
        return security_steps_of(s);
    }
    Ok(())
}

// Where the MessagePropertiesHeader begins, once S1 to S11 have passed.
#[tactic(auto, unfolding(rules::specs::Reading::start_at, rules::specs::Reading::header_at, rules::specs::Summary::no_security))]
fn start_at(s: &[u8], security_first: bool) -> Bytes
    requires { security_number security_first s.now ≡ 0 }
    ensures { result.0 ≡ start_at security_first s.now }
{
    if security_first {
        return header_length(s);
    }
    Bytes(0)
}

// Where the MessagePropertiesHeader begins of a section, at the input's first byte, that passes every step, or the first
// step that fails. The caller says whether a SecurityHeader stands first. (A small answer: what was read is made from the
// bytes once they have passed, and the field that failed is looked for where they have not. By `map_err` and `?` two goals
// stayed open.)
#[inline(always)]
#[tactic(auto, unfolding(rules::specs::Reading::base_judge, rules::specs::Place::header_refusal, rules::specs::Refusal::judged_of, rules::specs::Refusal::number_of))]
pub fn base_judge(s: &[u8], security_first: bool) -> Result<Bytes, Failed>
    ensures { judged_of result ≡ base_judge security_first s.now }
{
    if let Err(cause) = header_steps(s, security_first) {
        return Err(Failed {
            cause,
            header: Bytes(0),
        });
    }
    let at = start_at(s, security_first);
    match properties_steps_of(s, at) {
        Ok(()) => Ok(at),
        Err(cause) => Err(Failed { cause, header: at }),
    }
}

// The refusal of a step that failed so, its place that of the field that failed.
fn placed(s: &[u8], security_first: bool, failed: Failed) -> Refusal
    requires { refusal (number failed.cause) failed.header.0 ≡ base_judge security_first s.now }
    ensures { result ≡ judge security_first s.now }
{
    let at = failed.header;
    let security = security_fields(s);
    let label = label_at(s, properties_fields(s, at), at);
    section_refusal(
        failed.cause.number(),
        at,
        security_first,
        security,
        provider_info(s, security),
        label,
    )
}

// Where the MessagePropertiesHeader begins of a section that passes every step, or the refusal, its place that of the field
// that failed. Each step is made once, for a refused section too.
#[inline(always)]
#[tactic(auto, unfolding(rules::specs::Refusal::judged_of))]
pub fn judge(s: &[u8], security_first: bool) -> Result<Bytes, Refusal>
    ensures { result ≡ judged_once security_first s.now }
{
    match base_judge(s, security_first) {
        Ok(at) => Ok(at),
        Err(failed) => Err(placed(s, security_first, failed)),
    }
}

// (That the input passed stays a clause, as the input and `security_first` stay two parameters: of a struct of the three,
// `security_header` would still ask that a SecurityHeader stands first, and each clause would name two of its fields.)
#[tactic(auto, unfolding(rules::specs::Reading::header_at))]
pub(crate) fn header_at(s: &[u8], security_first: bool) -> SecurityHeader
    requires { (judge security_first s.now).number ≡ 0 }
    ensures { result ≡ header_at security_first s.now }
{
    if security_first {
        return security_header(s);
    }
    no_security()
}

#[tactic(auto, unfolding(rules::specs::Summary::summary_of))]
pub(crate) fn summary_of(
    security_first: bool,
    security: SecurityHeader,
    properties: PropertiesFields,
    verdicts: Verdicts,
) -> Summary
    requires verdicts_value { verdicts ≡ verdicts_of security.fields properties }
    requires properties_sizes { PropertiesSizes properties }
    requires length_bound { security.parts.length.0 < 2 ^ 40 }
    ensures { result ≡ summary_of security_first security properties (properties_parts security.parts.length.0 properties) }
{
    Summary {
        security_first,
        security,
        properties,
        parts: properties_parts(properties, security.parts.length),
        authentication_fails: verdicts.authentication_fails,
        decryption_fails: verdicts.decryption_fails,
        retired: verdicts.retired,
    }
}

// ApplicationTag of the header at `at`.
fn application_tag(s: &[u8], at: Bytes) -> u32
    requires { at.0 + 56 ≤ length s.now }
    ensures { result ≡ le 4 (drop at.0 s.now) 28 }
{
    let start = at.0;
    let h = &s[start..];
    u32_in(h, Bytes(28))
}

// The verdicts on a section whose SecurityHeader was read. (By themselves, before the section is filled: they branch, and
// with branches in it the filling becomes a function of its own, whose answer is moved.)
fn section_verdicts(s: &[u8], security: SecurityHeader) -> Verdicts
    requires { security.parts.length.0 + 56 ≤ length s.now }
    ensures { result ≡ verdicts_of security.fields (properties_fields (drop security.parts.length.0 s.now)) }
{
    verdicts_of(security.fields, fields_at(s, security.parts.length))
}

// The full reading of a section that passed every step, its SecurityHeader as it was read.
fn section_of(
    s: &[u8],
    security_first: bool,
    security: SecurityHeader,
    verdicts: Verdicts,
) -> Section
    requires s_value { (judge security_first s.now).number ≡ 0 }
    requires security_value { security ≡ header_at security_first s.now }
    requires verdicts_value { verdicts ≡ verdicts_of security.fields (properties_fields (drop security.parts.length.0 s.now)) }
    ensures { result ≡ section_of (summary_at security_first s.now) s.now }
{
    let at = security.parts.length;
    let properties = fields_at(s, at);
    Section {
        summary: summary_of(security_first, security, properties, verdicts),
        correlation_id: part(Bytes(at.0 + 4), Bytes(20)),
        application_tag: application_tag(s, at),
    }
}

// The summary, or the refusal.
#[tactic(auto, unfolding(rules::specs::Reading::summarize, crate::specs::Case::judged_once))]
pub fn summarize(s: &[u8], security_first: bool) -> Result<Summary, Refusal>
    ensures { result ≡ summarize security_first s.now }
{
    judge(s, security_first)?;
    let header = header_at(s, security_first);
    let section = section_of(s, security_first, header, section_verdicts(s, header));
    Ok(section.summary)
}

// The full reading. A section with a SecurityHeader and one without are cases by themselves, so that a caller that fills
// an answer has each filled in place: by the instruction counts, where the two meet every number of the section is held
// in between. (That is so for one caller in an archive: a second would have the function called, and its answer moved.)
#[derive(Clone, Copy)]
pub enum ReadingCase {
    WithSecurity(Section),
    WithoutSecurity(Section),
    Refused(Refusal),
}

#[tactic(auto, unfolding(rules::specs::Reading::summarize, rules::specs::Reading::read, crate::specs::Case::judged_once, crate::specs::Case::reading_case))]
pub fn reading_case(s: &[u8], security_first: bool) -> ReadingCase
    ensures { result ≡ reading_case security_first (read security_first s.now) }
{
    if let Err(refused) = judge(s, security_first) {
        return ReadingCase::Refused(refused);
    }
    if security_first {
        let header = security_header(s);
        let verdicts = section_verdicts(s, header);
        return ReadingCase::WithSecurity(section_of(s, true, header, verdicts));
    }
    let header = no_security();
    let verdicts = section_verdicts(s, header);
    ReadingCase::WithoutSecurity(section_of(s, false, header, verdicts))
}

// The full reading: the summary, CorrelationID and ApplicationTag. Each part's bytes are had by `view::part_of`.
#[tactic(auto, unfolding(crate::specs::Case::reading_case))]
pub fn read(s: &[u8], security_first: bool) -> Result<Section, Refusal>
    ensures { result ≡ read security_first s.now }
{
    match reading_case(s, security_first) {
        ReadingCase::WithSecurity(section) => Ok(section),
        ReadingCase::WithoutSecurity(section) => Ok(section),
        ReadingCase::Refused(refused) => Err(refused),
    }
}
