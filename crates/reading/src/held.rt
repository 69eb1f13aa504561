// Reading a section of which only some bytes are held, as C-12's portions leave it: the SecurityHeader's first 18, the
// provider's type, and the MessagePropertiesHeader's fixed bytes with the label.
ghost use Rattle.std.specs.Prelude.{◌≡◌, true, false, cond, [], ◌^◌, ◌≤◌, ◌<◌, eqb};
ghost use Rattle.octets.specs.Number.{le};
ghost use Rattle.rules.specs.Refusal.{judged_of, limit, number_of};
ghost use Rattle.reading.specs.Held.{held_base, held_properties_number, held_security, held_security_number, held_summary};

use crate::end::end_steps;
use crate::properties::{end_of, label_at, properties_fields};
use crate::section::summary_of;
use crate::security::{no_security, security_end, security_fields, security_parts, sid_byte};
use octets::count::Bytes;
use octets::number::{u8_at, u32_at};
use octets::part::within;
use rules::properties::{label_contents, properties_steps};
use rules::refusal::{Cause, Failed};
use rules::section::Summary;
use rules::security::{SecurityHeader, identity_head_fits, security_steps};
use rules::verdict::verdicts_of;

// The type, 0 where there is no provider info.
fn held_type(info_size: Bytes, provider_type: &[u8]) -> u32
    ensures { result ≡ cond (eqb info_size.0 0) 0 (le 4 provider_type.now 0) }
{
    if info_size.0 == 0 {
        return 0;
    }
    u32_at(provider_type, Bytes(0))
}

#[tactic(auto, unfolding(crate::specs::Held::held_security, rules::specs::Security::security_parts))]
fn held_security(head: &[u8], provider_type: &[u8]) -> SecurityHeader
    ensures value { result ≡ held_security head.now provider_type.now }
    ensures length_bound { result.parts.length.0 < 2 ^ 40 }
{
    let fields = security_fields(head);
    SecurityHeader {
        fields,
        parts: security_parts(fields),
        sid_revision: sid_byte(fields.flags, u8_at(head, Bytes(16))),
        sid_sub_authority_count: sid_byte(fields.flags, u8_at(head, Bytes(17))),
        provider_type: held_type(fields.provider_info_size, provider_type),
    }
}

// S1 to S11, of n bytes
#[tactic(auto, unfolding(crate::specs::Held::held_security_number, rules::specs::Security::read_security, rules::specs::Security::security_contents, rules::specs::Refusal::first_of, rules::specs::Refusal::number_of, rules::specs::Refusal::number))]
fn held_security_steps(n: Bytes, head: &[u8], text: bool) -> Result<(), Cause>
    ensures { number_of result ≡ held_security_number n.0 true head.now text }
{
    if n.0 < 16 {
        return Err(Cause::InputShort);
    }
    let fields = security_fields(head);
    security_steps(fields)?;
    end_steps(n, security_end(head))?;
    if !identity_head_fits(fields, within(head, Bytes(16), Bytes(2))) {
        return Err(Cause::Identity);
    }
    if !text {
        return Err(Cause::Provider);
    }
    Ok(())
}

// P1 to P7, of a header at `at` in n bytes
#[tactic(auto, unfolding(crate::specs::Held::held_properties_number, rules::specs::Properties::read_properties, rules::specs::Properties::properties_parts, rules::specs::Refusal::first_of, rules::specs::Refusal::number_of, rules::specs::Refusal::number))]
fn held_properties_steps(n: Bytes, at: Bytes, held: &[u8]) -> Result<(), Cause>
    requires { at.0 ≤ limit }
    ensures { number_of result ≡ held_properties_number n.0 at.0 held.now }
{
    if n.0 < at.0 + 56 {
        return Err(Cause::InputShort);
    }
    let fields = properties_fields(held, Bytes(0));
    properties_steps(fields)?;
    end_steps(n, end_of(fields, at))?;
    label_contents(label_at(held, fields, Bytes(0)))
}

// Where the MessagePropertiesHeader begins, in n bytes of which these are held and pass every step; or the first step that
// fails. `text` is whether the provider info passes S11. (By `match`, as `base_judge` says.)
#[tactic(auto, unfolding(crate::specs::Held::held_base, crate::specs::Held::held_security_number, crate::specs::Held::held_start, rules::specs::Place::header_refusal, rules::specs::Refusal::judged_of, rules::specs::Refusal::number_of))]
pub fn held_judge(
    n: Bytes,
    security_first: bool,
    head: &[u8],
    text: bool,
    properties: &[u8],
) -> Result<Bytes, Failed>
    ensures { judged_of result ≡ held_base n.0 security_first head.now text properties.now }
{
    let at = if security_first {
        if let Err(cause) = held_security_steps(n, head, text) {
            return Err(Failed {
                cause,
                header: Bytes(0),
            });
        }
        security_end(head)
    } else {
        Bytes(0)
    };
    match held_properties_steps(n, at, properties) {
        Ok(()) => Ok(at),
        Err(cause) => Err(Failed { cause, header: at }),
    }
}

// The summary of what is held, where a SecurityHeader stands first. Of bytes that passed every step it is the section's;
// of any others, what their sizes say.
#[tactic(auto, unfolding(crate::specs::Held::held_summary, crate::specs::Held::held_header))]
pub fn held_with_security(head: &[u8], provider_type: &[u8], properties: &[u8]) -> Summary
    ensures { result ≡ held_summary true head.now provider_type.now properties.now }
{
    let security = held_security(head, provider_type);
    let fields = properties_fields(properties, Bytes(0));
    let verdicts = verdicts_of(security.fields, fields);
    summary_of(true, security, fields, verdicts)
}

// The same, where none does. (Two functions: by the instruction counts, a caller then has each summary filled in place.)
#[tactic(auto, unfolding(crate::specs::Held::held_summary, crate::specs::Held::held_header, rules::specs::Summary::no_security))]
pub fn held_without_security(properties: &[u8]) -> Summary
    ensures { result ≡ held_summary false [] [] properties.now }
{
    let security = no_security();
    let fields = properties_fields(properties, Bytes(0));
    let verdicts = verdicts_of(security.fields, fields);
    summary_of(false, security, fields, verdicts)
}
