// The provider name, judged as it passes: of its units only how many stand before the first zero unit is kept.
ghost use Rattle.std.specs.Prelude.{◌≡◌, false, ◌*◌, ◌/◌, length, take};
ghost use Rattle.portions.specs.Name.{named, with_byte, with_unit};

use octets::count::{Bytes, Units};
use octets::number::u16_of;
use octets::text::before_zero;
use rules::section::LIMIT;

// How many units came before the first zero unit, whether that came, and a unit's low byte whose high byte has not come.
// (A mark beside the byte, as `Progress` and C's counters have them.)
#[repr(C)]
#[derive(Clone, Copy, Default)]
pub struct NameProgress {
    pub units: Units,
    pub ended: bool,
    pub odd: bool,
    pub low: u8,
}

#[tactic(auto, unfolding(crate::specs::Name::with_unit))]
fn with_unit(name: NameProgress, unit: u16) -> NameProgress
    ensures { result ≡ with_unit name unit }
{
    let units = name.units.0;
    let ended = name.ended || unit == 0;
    // no name is longer than a section, so the count needs no more room
    let counts = !ended && units < LIMIT as u32;
    NameProgress {
        units: Units(units + u32::from(counts)),
        ended,
        odd: false,
        low: 0,
    }
}

#[tactic(auto, unfolding(crate::specs::Name::with_byte, octets::specs::Number::le))]
fn with_byte(name: NameProgress, byte: u8) -> NameProgress
    ensures { result ≡ with_byte name byte }
{
    if name.odd {
        return with_unit(name, u16_of(name.low, byte));
    }
    NameProgress {
        odd: true,
        low: byte,
        ..name
    }
}

// The whole units of bytes that begin with one: they count up to the first zero unit, where none came before.
fn with_whole_units(name: NameProgress, part: &[u8]) -> NameProgress
    requires { name.odd ≡ false }
    ensures { result ≡ named name (take (2 * (length part.now / 2)) part.now) }
{
    if part.len() < 2 {
        return name;
    }
    if name.ended {
        return NameProgress { low: 0, ..name };
    }
    let before = before_zero(part);
    let room = (2 * LIMIT).saturating_sub(name.units.bytes().0);
    NameProgress {
        units: Units(name.units.0 + Bytes(before.0.min(room)).units().0),
        ended: before.0 + 1 < part.len(),
        odd: false,
        low: 0,
    }
}

// Bytes that begin with a unit's low byte: whole units, and maybe the low byte of one more.
fn with_units(name: NameProgress, part: &[u8]) -> NameProgress
    requires { name.odd ≡ false }
    ensures { result ≡ named name part.now }
{
    let judged = with_whole_units(name, part);
    if part.len() % 2 == 0 {
        return judged;
    }
    with_byte(judged, part[part.len() - 1])
}

// The bytes of the name that a portion brings. (The units are gone through in one place, so that no name is moved.)
pub(crate) fn with_bytes(name: NameProgress, part: &[u8]) -> NameProgress
    ensures { result ≡ named name part.now }
{
    if part.is_empty() {
        return name;
    }
    let whole = if name.odd {
        with_byte(name, part[0])
    } else {
        name
    };
    with_units(whole, &part[usize::from(name.odd)..])
}
