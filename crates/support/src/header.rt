// The headers of a copy: the runs of their masks, in order, written and looked for.
ghost use Rattle.std.specs.Prelude.{◌≡◌, true, ◌↔◌, ◌++◌, ◌+◌, ◌≤◌, length, replicate, take};
ghost use Rattle.octets.specs.Over.{over};
ghost use Rattle.rules.specs.Judged.{judged_identity, masked, properties_mask, security_mask};
ghost use Rattle.rules.specs.Properties.{properties_row};
ghost use Rattle.rules.specs.Row.{row_bits};
ghost use Rattle.rules.specs.Security.{provider_at, security_length};
ghost use Rattle.support.specs.Laid.{PropertiesLaid, SecurityLaid};

use crate::run::{
    hide, is_hidden, is_hidden_long, is_kept, is_kept_long, is_low_four, keep, low_four,
};
use octets::count::{Bytes, smaller};
use octets::padding::padding;
use rules::properties::PropertiesFields;
use rules::security::{AU, SecurityFields};

// Of an identity of ST 1 the first two bytes are judged.
#[tactic(auto, unfolding(rules::specs::Judged::judged_identity))]
fn judged_identity(f: SecurityFields) -> Bytes
    ensures { result.0 ≡ judged_identity f }
{
    let flags = f.flags;
    if flags % AU != 1 {
        return Bytes(0);
    }
    smaller(Bytes(2), f.sender_id_size)
}

// Where the provider info of a header of `size` bytes begins.
#[tactic(auto, unfolding(rules::specs::Security::security_length, octets::specs::Padding::padded))]
pub(crate) fn provider_start(f: SecurityFields, size: Bytes) -> Bytes
    requires { size.0 ≡ security_length f }
    ensures { result.0 ≡ provider_at f }
{
    let info = f.provider_info_size;
    Bytes(size.0 - info.0 - padding(info).0)
}

// The runs of `security_mask`, the five sizes and the judged identity bytes in one. The header is `size` bytes long, its
// provider info begins at `provider`.
pub(crate) fn copy_security(
    s: &[u8],
    f: SecurityFields,
    provider: Bytes,
    size: Bytes,
    out: &mut [u8],
)
    requires { SecurityLaid f provider.0 size.0 s.now out.old }
    ensures { out.new ≡ over (masked (security_mask f) s.now) out.old }
{
    let identity = judged_identity(f);
    let info = f.provider_info_size;
    let hidden = 16 + identity.0;
    let padding = provider.0 + info.0;
    keep(s, out, Bytes(0), Bytes(1));
    low_four(s, out, Bytes(1));
    keep(s, out, Bytes(2), Bytes(14 + identity.0));
    hide(out, Bytes(hidden), Bytes(provider.0 - hidden));
    keep(s, out, provider, info);
    hide(out, Bytes(padding), Bytes(size.0 - padding));
}

// The runs looked for: those of the fixed bytes have constant lengths, so that no loop is left of them.
pub(crate) fn is_security_copy(
    s: &[u8],
    f: SecurityFields,
    provider: Bytes,
    size: Bytes,
    proposed: &[u8],
) -> bool
    requires { SecurityLaid f provider.0 size.0 s.now proposed.now }
    ensures { (result ≡ true) ↔ (take size.0 proposed.now ≡ masked (security_mask f) s.now) }
{
    let identity = judged_identity(f);
    let info = f.provider_info_size;
    let hidden = 16 + identity.0;
    let padding = provider.0 + info.0;
    is_kept(s, proposed, Bytes(0), Bytes(1))
        & is_low_four(s, proposed, Bytes(1))
        & is_kept(s, proposed, Bytes(2), Bytes(14))
        & is_kept(s, proposed, Bytes(16), identity)
        & is_hidden_long(proposed, Bytes(hidden), Bytes(provider.0 - hidden))
        & is_kept_long(s, proposed, provider, info)
        & is_hidden(proposed, Bytes(padding), Bytes(size.0 - padding))
}

// The runs of `properties_mask`, the last fixed fields and the label in one. Both slices begin at the
// MessagePropertiesHeader, which is `size` bytes long with all that follows it.
pub(crate) fn copy_properties(s: &[u8], f: PropertiesFields, size: Bytes, out: &mut [u8])
    requires { PropertiesLaid f size.0 s.now out.old }
    ensures { out.new ≡ over (masked (properties_mask f) s.now) out.old }
{
    let label = f.label_length.bytes().0;
    let hidden = 56 + label;
    low_four(s, out, Bytes(0));
    keep(s, out, Bytes(1), Bytes(3));
    hide(out, Bytes(4), Bytes(20));
    keep(s, out, Bytes(24), Bytes(4));
    hide(out, Bytes(28), Bytes(4));
    keep(s, out, Bytes(32), Bytes(24 + label));
    hide(out, Bytes(hidden), Bytes(size.0 - hidden));
}

// Its fixed bytes and label.
fn is_head_copy(s: &[u8], label: Bytes, proposed: &[u8]) -> bool
    requires label_in_bounds { 56 + label.0 ≤ length s.now }
    requires label_in_bounds_2 { 56 + label.0 ≤ length proposed.now }
    ensures { (result ≡ true)
        ↔ (take (56 + label.0) proposed.now ≡ masked (row_bits 0 properties_row ++ replicate label.0 8) s.now) }
{
    is_low_four(s, proposed, Bytes(0))
        & is_kept(s, proposed, Bytes(1), Bytes(3))
        & is_hidden(proposed, Bytes(4), Bytes(20))
        & is_kept(s, proposed, Bytes(24), Bytes(4))
        & is_hidden(proposed, Bytes(28), Bytes(4))
        & is_kept(s, proposed, Bytes(32), Bytes(24))
        & is_kept_long(s, proposed, Bytes(56), label)
}

// Extension and body may be long: they are looked at only where the rest is right.
pub(crate) fn is_properties_copy(
    s: &[u8],
    f: PropertiesFields,
    size: Bytes,
    proposed: &[u8],
) -> bool
    requires { PropertiesLaid f size.0 s.now proposed.now }
    ensures { (result ≡ true) ↔ (take size.0 proposed.now ≡ masked (properties_mask f) s.now) }
{
    let label = f.label_length.bytes();
    if !is_head_copy(s, label, proposed) {
        return false;
    }
    let hidden = 56 + label.0;
    is_hidden_long(proposed, Bytes(hidden), Bytes(size.0 - hidden))
}
