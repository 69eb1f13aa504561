// The MessagePropertiesHeader's fixed bytes and its label, which are held up to the label's end.
ghost use Rattle.std.specs.Prelude.{◌≡◌, ◌<◌, get_or, length};
ghost use Rattle.portions.specs.Fed.{past_label, properties_then};
ghost use Rattle.portions.specs.Window.{shown};

use crate::window::{show, up_to};
use octets::count::{Bytes, Units};

// LabelLength as it is held, 0 before it has come.
pub fn label_length(properties: &[u8; 556]) -> Units
    ensures { result.0 ≡ get_or properties.now 1 0 }
{
    Units(u32::from(properties[1]))
}

// The label's end is behind: what comes now is only counted.
#[tactic(auto, unfolding(crate::specs::Fed::past_label))]
pub fn past_label(received: Bytes, properties_at: Bytes, label_length: Units) -> bool
    ensures { result ≡ past_label received.0 properties_at.0 label_length.0 }
{
    56 + label_length.bytes().0 <= received.0.saturating_sub(properties_at.0)
}

// LabelLength, once a portion has come: it is held, or comes with it.
fn label_length_then(
    properties: &[u8],
    properties_at: Bytes,
    received: Bytes,
    bytes: &[u8],
) -> Units
    requires { 1 < length properties.now }
    ensures { result.0 ≡ get_or (shown properties.now properties_at.0 received.0 bytes.now) 1 0 }
{
    let held = Units(u32::from(properties[1]));
    let have = received.0.saturating_sub(properties_at.0);
    if 1 < have {
        return held;
    }
    let skip = properties_at.0.saturating_sub(received.0);
    let behind = bytes.len().saturating_sub(skip);
    if behind <= 1 - have {
        return held;
    }
    Units(u32::from(bytes[skip + (1 - have)]))
}

// The MessagePropertiesHeader and its label go on by a portion, up to the label's end.
#[tactic(auto, unfolding(crate::specs::Fed::properties_then))]
pub fn hold_properties(
    properties: &mut [u8; 556],
    properties_at: Bytes,
    received: Bytes,
    bytes: &[u8],
)
    ensures { properties.new ≡ properties_then properties.old properties_at.0 received.0 bytes.now }
{
    let units = label_length_then(properties, properties_at, received, bytes);
    let held = Bytes(56 + units.bytes().0);
    show(
        properties,
        properties_at,
        received,
        up_to(bytes, properties_at, received, held),
    );
}
