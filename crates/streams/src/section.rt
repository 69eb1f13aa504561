// One section as a program's input.
ghost use Rattle.std.specs.Prelude.{◌≡◌, length, replicate};

use crate::output::{tell, tell_number};
use std::io::Write;

// The longest input that is read. The section and its copy lie on the stack, each in a buffer that is a byte longer, and
// the stack has 8 MiB in most systems.
const LONGEST: usize = 3145728;

// One byte longer, so that a full buffer means that the input is too long. The length is promised by itself, since
// lending the array as a slice needs it.
pub fn section_buffer() -> [u8; 3145729]
    ensures value { result ≡ replicate 3145729 0 }
    ensures value_2 { 3145729 ≡ length result }
{
    [0; 3145729]
}

pub fn tell_too_long<E: Write>(errors: &mut E) {
    tell(errors, b"the input is longer than ");
    tell_number(errors, LONGEST as u64);
    tell(
        errors,
        b" bytes, and this program reads no more; a section has at most 4,194,304\n",
    );
}
