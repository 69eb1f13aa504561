// Title and provider name: 16-bit units up to the first zero.
ghost use Rattle.std.specs.Prelude.{◌≡◌, ◌≤◌, ◌/◌, length};
ghost use Rattle.requests.specs.Defaults.{before_zero, title_of};
ghost use Rattle.requests.specs.Section.{label};
ghost use Rattle.requests.specs.Steps.{name_fits, without_zero};

use octets::count::Units;

const KEPT: usize = 249;

// Whether no unit is zero. No early exit, so that the loop becomes vector code.
fn without_zero(units: &[u16]) -> bool
    ensures { result ≡ without_zero units.now }
{
    let mut none = true;
    for unit in units {
        none &= *unit != 0;
    }
    none
}

// How many units stand before the first zero, which most texts do not hold.
fn before_zero(units: &[u16]) -> Units
    requires { length units.now ≤ 249 }
    ensures { result.0 ≡ length (before_zero units.now) }
{
    if without_zero(units) {
        return Units(units.len() as u32);
    }
    let count = units
        .iter()
        .position(|unit| *unit == 0)
        .unwrap_or(units.len());
    Units(count as u32)
}

// How many units of a title are kept: those before the first zero, and of these 249, so that 250 hold them with a null.
pub fn kept_units(title: &[u16]) -> Units
    ensures { result.0 ≡ length (title_of title.now) }
{
    before_zero(&title[..KEPT.min(title.len())])
}

// LabelLength: the units kept of a title and the null, or 0 where none is kept.
pub fn label_units(title: &[u16]) -> Units
    ensures { result.0 ≡ length (label title.now) / 2 }
{
    let kept = kept_units(title);
    if kept.0 == 0 {
        return kept;
    }
    Units(kept.0 + 1)
}

// Step 4: a name of 1 to 1,024 units without zero.
#[tactic(auto, unfolding(crate::specs::Steps::name_fits))]
pub fn name_fits(name: &[u16]) -> bool
    ensures { result ≡ name_fits name.now }
{
    !name.is_empty() && name.len() <= 1024 && without_zero(name)
}
