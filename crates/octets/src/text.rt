// Text of 16-bit units, of which the last and no other is zero.
ghost use Rattle.std.specs.Prelude.{◌≡◌, ◌*◌, ◌/◌, ◌%◌, ◌≤◌, ltb, length};
ghost use Rattle.octets.specs.Text.{break_at, first_zero, is_text, units};

use crate::count::{Bytes, smaller};
use crate::number::{u16_at, u16_of};

// Whether a zero unit stands before `end`. No early exit, so that the loop, whose index counts units, becomes vector
// code of 16-bit lanes. (By `for` here 30 bytes took two fifths longer in `before_zero`, measured by itself; by a fold 100
// bytes a third longer in `is_text`; by `position` 4 KB four times as long.)
fn has_zero(s: &[u8], end: Bytes) -> bool
    requires { end.0 ≤ length s.now }
    ensures { result ≡ ltb (first_zero (units s.now)) (end.0 / 2) }
{
    let n = end.0 / 2;
    let mut zero = false;
    let mut i = 0;
    while i < n {
        zero |= u16_of(s[2 * i], s[2 * i + 1]) == 0;
        i += 1;
    }
    zero
}

// The bytes of 16 units.
const BLOCK: usize = 32;

// The same, for a long text by whole blocks and the last block once more, so that no loop is left for the rest.
fn has_zero_in(s: &[u8], end: Bytes) -> bool
    requires end_in_bounds { end.0 ≤ length s.now }
    requires end_value { end.0 % 2 ≡ 0 }
    ensures { result ≡ ltb (first_zero (units s.now)) (end.0 / 2) }
{
    if end.0 < BLOCK {
        return has_zero(s, end);
    }
    if has_zero(s, Bytes(end.0 / BLOCK * BLOCK)) {
        return true;
    }
    let last = end.0 - BLOCK;
    has_zero(&s[last..], Bytes(BLOCK))
}

// Whether the bytes are 16-bit units of which the last and no other is zero.
pub fn is_text(s: &[u8]) -> bool
    ensures { result ≡ is_text s.now }
{
    let n = s.len();
    if n < 2 {
        return false;
    }
    if n % 2 != 0 {
        return false;
    }
    let last = Bytes(n - 2);
    if u16_at(s, last) != 0 {
        return false;
    }
    !has_zero_in(s, last)
}

// As many whole blocks from the first on as hold no zero unit, in bytes. (With `for` in all three loops 30 and 64 bytes took
// a third longer and more, measured by itself.)
fn blocks_without_zero(s: &[u8]) -> Bytes
    ensures { result.0 ≡ 32 * (first_zero (units s.now) / 16) }
{
    let mut i = 0;
    while BLOCK <= s.len() - i {
        if has_zero(&s[i..], Bytes(BLOCK)) {
            return Bytes(i);
        }
        i += BLOCK;
    }
    Bytes(i)
}

// How many bytes stand before the first zero unit, where none stands before `from`: all whole units where none is zero.
// (No `for`, as above.)
fn before_zero_from(s: &[u8], from: Bytes) -> Bytes
    requires from_value { from.0 % 2 ≡ 0 }
    requires from_bound { from.0 / 2 ≤ first_zero (units s.now) }
    ensures result_value { result.0 ≡ 2 * first_zero (units s.now) }
    ensures result_in_bounds { result.0 ≤ length s.now }
{
    let n = s.len() / 2;
    let mut i = from.0 / 2;
    let unit = loop {
        if n <= i {
            break i;
        }
        if u16_of(s[2 * i], s[2 * i + 1]) == 0 {
            break i;
        }
        i += 1;
    };
    Bytes(2 * unit)
}

// How many bytes stand before the first zero unit: by whole blocks up to the one that holds it, and in that one, or in
// what no longer fills a block, unit by unit.
pub fn before_zero(s: &[u8]) -> Bytes
    ensures result_value { result.0 ≡ 2 * first_zero (units s.now) }
    ensures result_in_bounds { result.0 ≤ length s.now }
{
    before_zero_from(s, blocks_without_zero(s))
}

// Where the first unit that breaks the rule of a text begins: the first zero unit, or the last unit where none stands
// before it. Asked only of what is no text. (Not by blocks: with a second caller the search by blocks would be a
// function of its own, and a provider name in portions slower. Never inlined: in the middle of its caller the loop's last jump
// lay on a boundary of 32 bytes, and a name of 60 KB took a third longer.)
#[inline(never)]
pub fn first_break(s: &[u8]) -> Bytes
    ensures result_value { result.0 ≡ break_at s.now }
    ensures result_in_bounds { result.0 ≤ length s.now }
{
    let n = s.len() / 2;
    if n == 0 {
        return Bytes(0);
    }
    smaller(before_zero_from(s, Bytes(0)), Bytes(2 * (n - 1)))
}
