// Numbers in decimal, the digits from the last to the first.
ghost use Rattle.std.specs.Prelude.{◌≡◌, ◌≤◌, length};
ghost use Rattle.records.specs.Decimal.{decimal};

use octets::count::Bytes;

// How many digits a number has. (By std's `checked_ilog10` 0 is a case by itself, and `decimal`, which goes by
// division, needs a law by powers: no plainer.)
pub(crate) fn digit_count(n: u64) -> Bytes
    ensures result_value { result.0 ≡ length (decimal n) }
    ensures result_bound { result.0 ≤ 20 }
{
    let mut count = 1;
    let mut rest = n;
    while 9 < rest {
        rest /= 10;
        count += 1;
    }
    Bytes(count)
}

// Over text that has room for the digits and no more. (By a `for` over the places a line took 218 instructions for 209.)
pub(crate) fn put_digits(n: u64, text: &mut [u8])
    requires { length text.old ≡ length (decimal n) }
    ensures { text.new ≡ decimal n }
{
    let mut left = text.len();
    let mut rest = n;
    while 9 < rest {
        left -= 1;
        text[left] = b'0' + (rest % 10) as u8;
        rest /= 10;
    }
    text[0] = b'0' + rest as u8;
}
