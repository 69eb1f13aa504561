// The finish: the answer for all that came, from what is kept of it.
ghost use Rattle.std.specs.Prelude.{Err, ◌≡◌, ◌+◌, ◌*◌, min, not, ◌||◌};
ghost use Rattle.rules.specs.Place.{name_place, security_place};
ghost use Rattle.rules.specs.Refusal.{judged_of, limit, number, refusal};
ghost use Rattle.rules.specs.Security.{provider_at};
ghost use Rattle.reading.specs.Fields.{security_read};
ghost use Rattle.reading.specs.Held.{held_base, held_label};
ghost use Rattle.portions.specs.Finish.{finish_answer, finish_case, finish_state, held_judge};
ghost use Rattle.portions.specs.Name.{name_break_of, name_text};
ghost use Rattle.portions.specs.State.{state_with};

use crate::name::NameProgress;
use crate::state::{Progress, State};
use octets::count::{Bytes, Units};
use octets::part::within;
use reading::held::{held_judge, held_with_security, held_without_security};
use reading::properties::properties_fields;
use reading::security::security_fields;
use rules::place::{provider_at, section_refusal};
use rules::refusal::{Cause, Failed, Refusal};
use rules::section::Summary;
use rules::security::{SecurityFields, security_steps};

// The answer of a finish. (No `Result`: measured by instruction counts, a caller that fills an answer has the summary of
// either kind of section filled in place. `reading`'s `ReadingCase` is of sections, and a generic one for both no plainer.)
#[derive(Clone, Copy)]
pub enum FinishCase {
    WithSecurity(Summary),
    WithoutSecurity(Summary),
    Refused(Refusal),
}

// S11, of provider info of so many bytes.
#[tactic(auto, unfolding(crate::specs::Name::name_text))]
fn name_text(info_size: Bytes, name: NameProgress) -> bool
    ensures { result ≡ name_text info_size.0 name }
{
    info_size.0 == 0 || name.units.bytes().0 + 2 == info_size.0.saturating_sub(4)
}

// S11 of what came. Where no SecurityHeader stands first it is not asked.
fn text_passes(progress: Progress, head: &[u8]) -> bool
    ensures { result ≡ (not progress.security_first
        || name_text (security_read head.now).provider_info_size.0 progress.name) }
{
    !progress.security_first || name_text(security_fields(head).provider_info_size, progress.name)
}

// The first unit of the name that breaks the rule.
#[tactic(auto, unfolding(rules::specs::Place::name_place, crate::specs::Name::name_break_of))]
fn name_place(f: SecurityFields, name: NameProgress) -> Bytes
    ensures { result.0 ≡ name_place (min (limit + 1) (provider_at f)) (name_break_of f.provider_info_size.0 name) }
{
    let last = f.provider_info_size.0.saturating_sub(6);
    Bytes(provider_at(f).0 + 4 + name.units.bytes().0.min(last))
}

// The refusal by an S step. For all but the name's rule its place is told without the name.
fn security_refused(cause: Cause, f: SecurityFields, name: NameProgress) -> Refusal
    ensures { result ≡ refusal (number cause) (security_place (number cause) f (min (limit + 1) (provider_at f))
        (name_break_of f.provider_info_size.0 name)) }
{
    let number = cause.number(); // by which `security_place` tells them
    if number == Cause::Provider.number() && security_steps(f).is_ok() {
        return Refusal::new(cause, name_place(f, name));
    }
    section_refusal(number, Bytes(0), true, f, &[], &[])
}

// The refusal by the step that failed, its place that of the field that failed.
fn placed(progress: Progress, head: &[u8], properties: &[u8], failed: Failed) -> Refusal
    requires { judged_of (Err failed) ≡ held_base progress.received.0 progress.security_first head.now
        (name_text (security_read head.now).provider_info_size.0 progress.name) properties.now }
    ensures { result ≡ held_judge progress head.now properties.now }
{
    let f = security_fields(head);
    let at = failed.header;
    if progress.security_first && at.0 == 0 {
        return security_refused(failed.cause, f, progress.name);
    }
    let h = properties_fields(properties, Bytes(0));
    let label = within(properties, Bytes(56), h.label_length.bytes());
    section_refusal(failed.cause.number(), at, false, f, &[], label)
}

// The summary, or the refusal, of the state that these lent bytes and `progress` are. Refused with 14 where it is finished.
// (No `&State`, since C lends its members.)
pub fn finish_case(
    progress: Progress,
    head: &[u8; 18],
    provider_type: &[u8; 4],
    properties: &[u8; 556],
) -> FinishCase
    ensures { result ≡ finish_case progress.security_first (finish_answer (state_with progress head.now
        provider_type.now properties.now)) }
{
    if progress.finished {
        return FinishCase::Refused(Refusal::at_start(Cause::AfterTheFinish));
    }
    let judged = held_judge(
        progress.received,
        progress.security_first,
        head,
        text_passes(progress, head),
        properties,
    );
    if let Err(failed) = judged {
        return FinishCase::Refused(placed(progress, head, properties, failed));
    }
    if progress.security_first {
        return FinishCase::WithSecurity(held_with_security(head, provider_type, properties));
    }
    FinishCase::WithoutSecurity(held_without_security(properties))
}

impl State {
    // The summary, or the refusal, of all that came. The state is finished then, and its bytes stay.
    #[tactic(auto, unfolding(crate::specs::Finish::finish_state, crate::specs::Finish::finished_progress, crate::specs::Finish::finish_case,))]
    pub fn finish(&mut self) -> Result<Summary, Refusal>
        ensures value { result ≡ finish_answer self.old }
        ensures state_after { self.new ≡ finish_state self.old }
    {
        let case = finish_case(
            self.progress,
            &self.head,
            &self.provider_type,
            &self.properties,
        );
        self.progress.finished = true;
        match case {
            FinishCase::WithSecurity(summary) | FinishCase::WithoutSecurity(summary) => Ok(summary),
            FinishCase::Refused(refusal) => Err(refusal),
        }
    }
}

// The label that is held, null included.
pub fn label_held(properties: &[u8; 556], label_length: Units) -> &[u8]
    ensures { result.now ≡ held_label properties.now (2 * label_length.0) }
{
    within(properties, Bytes(56), label_length.bytes())
}
