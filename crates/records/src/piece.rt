// The pieces of a line, each over the first bytes of what it is lent. Both answer how many bytes they have.
ghost use Rattle.std.specs.Prelude.{◌≡◌, [], ◌∷◌, ◌++◌, ◌≤◌, length};
ghost use Rattle.octets.specs.Over.{over};
ghost use Rattle.records.specs.Decimal.{decimal};

use crate::decimal::{digit_count, put_digits};
use octets::count::Bytes;
use octets::over::copy;

pub(crate) fn put_word(word: &[u8], text: &mut [u8]) -> Bytes
    requires { length word.now ≤ length text.old }
    ensures result_value { result.0 ≡ length word.now }
    ensures text_after { text.new ≡ over word.now text.old }
{
    let end = word.len();
    copy(word, &mut text[..end]);
    Bytes(end)
}

// A number and the byte after it.
pub(crate) fn put_number(n: u64, after: u8, text: &mut [u8]) -> Bytes
    requires { 21 ≤ length text.old }
    ensures result_value { result.0 ≡ length (decimal n ++ (after ∷ [])) }
    ensures result_bound { result.0 ≤ 21 }
    ensures text_after { text.new ≡ over (decimal n ++ (after ∷ [])) text.old }
{
    let end = digit_count(n).0;
    put_digits(n, &mut text[..end]);
    text[end] = after;
    Bytes(end + 1)
}
