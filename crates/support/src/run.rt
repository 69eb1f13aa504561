// Runs of a copy, written, and looked for in a proposed one: bytes kept, a byte of which the low four bits are kept, bytes
// of which none are. (Offset and count by themselves: as a `Part` no call would be plainer.)
ghost use Rattle.std.specs.Prelude.{◌≡◌, true, ◌↔◌, ◌+◌, ◌≤◌, ◌<◌, drop, length, replicate, take};
ghost use Rattle.octets.specs.Over.{over_at};
ghost use Rattle.rules.specs.Judged.{masked};

use octets::count::Bytes;
use octets::over::{copy, zero};
use octets::same::{all_zero, all_zero_long, same, same_long};

pub(crate) fn keep(s: &[u8], out: &mut [u8], at: Bytes, n: Bytes)
    requires n_in_bounds { at.0 + n.0 ≤ length s.now }
    requires n_in_bounds_2 { at.0 + n.0 ≤ length out.old }
    ensures { out.new ≡ over_at at.0 (masked (replicate n.0 8) (drop at.0 s.now)) out.old }
{
    let start = at.0;
    let end = start + n.0;
    copy(&s[start..end], &mut out[start..end]);
}

pub(crate) fn is_kept(s: &[u8], proposed: &[u8], at: Bytes, n: Bytes) -> bool
    requires n_in_bounds { at.0 + n.0 ≤ length s.now }
    requires n_in_bounds_2 { at.0 + n.0 ≤ length proposed.now }
    ensures { (result ≡ true) ↔ (take n.0 (drop at.0 proposed.now) ≡ masked (replicate n.0 8) (drop at.0 s.now)) }
{
    let start = at.0;
    let end = start + n.0;
    same(&s[start..end], &proposed[start..end])
}

// The same, for many bytes, as `same_long` is.
pub(crate) fn is_kept_long(s: &[u8], proposed: &[u8], at: Bytes, n: Bytes) -> bool
    requires n_in_bounds { at.0 + n.0 ≤ length s.now }
    requires n_in_bounds_2 { at.0 + n.0 ≤ length proposed.now }
    ensures { (result ≡ true) ↔ (take n.0 (drop at.0 proposed.now) ≡ masked (replicate n.0 8) (drop at.0 s.now)) }
{
    let start = at.0;
    let end = start + n.0;
    same_long(&s[start..end], &proposed[start..end])
}

pub(crate) fn low_four(s: &[u8], out: &mut [u8], at: Bytes)
    requires at_in_bounds { at.0 < length s.now }
    requires at_in_bounds_2 { at.0 < length out.old }
    ensures { out.new ≡ over_at at.0 (masked (replicate 1 4) (drop at.0 s.now)) out.old }
{
    let i = at.0;
    out[i] = s[i] % 16;
}

#[tactic(auto, unfolding(rules::specs::Judged::masked))]
pub(crate) fn is_low_four(s: &[u8], proposed: &[u8], at: Bytes) -> bool
    requires at_in_bounds { at.0 < length s.now }
    requires at_in_bounds_2 { at.0 < length proposed.now }
    ensures { (result ≡ true) ↔ (take 1 (drop at.0 proposed.now) ≡ masked (replicate 1 4) (drop at.0 s.now)) }
{
    let i = at.0;
    proposed[i] == s[i] % 16
}

pub(crate) fn hide(out: &mut [u8], at: Bytes, n: Bytes)
    requires { at.0 + n.0 ≤ length out.old }
    ensures { out.new ≡ over_at at.0 (replicate n.0 0) out.old }
{
    let start = at.0;
    let end = start + n.0;
    zero(&mut out[start..end]);
}

pub(crate) fn is_hidden(proposed: &[u8], at: Bytes, n: Bytes) -> bool
    requires { at.0 + n.0 ≤ length proposed.now }
    ensures { (result ≡ true) ↔ (take n.0 (drop at.0 proposed.now) ≡ replicate n.0 0) }
{
    let start = at.0;
    let end = start + n.0;
    all_zero(&proposed[start..end])
}

// The same, for many bytes, as `all_zero_long` is.
pub(crate) fn is_hidden_long(proposed: &[u8], at: Bytes, n: Bytes) -> bool
    requires { at.0 + n.0 ≤ length proposed.now }
    ensures { (result ≡ true) ↔ (take n.0 (drop at.0 proposed.now) ≡ replicate n.0 0) }
{
    let start = at.0;
    let end = start + n.0;
    all_zero_long(&proposed[start..end])
}
