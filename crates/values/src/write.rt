// Writing a value: the bytes of a body.
ghost use Rattle.std.specs.Prelude.{◌≡◌, ◌≤◌, length};
ghost use Rattle.octets.specs.Over.{over};
ghost use Rattle.values.specs.Write.{value_bytes, write_answer, write_bytes};

use crate::value::{BodyValue, Kind};
use octets::count::Bytes;
use octets::number::{u32_bytes, u64_bytes};
use octets::over::copy;
use rules::refusal::Refusal;
use rules::section::output_short;

fn put_value(value: BodyValue, out: &mut [u8])
    requires { length (value_bytes value) ≤ length out.old }
    ensures { out.new ≡ over (value_bytes value) out.old }
{
    let bits = value.bits();
    match value.kind() {
        Kind::R8 => copy(&u64_bytes(bits), out),
        _ => copy(&u32_bytes((bits % 4294967296) as u32), out),
    }
}

// Writes the 4 or 8 bytes of the body, or leaves the output as it is: 13.
pub fn write_value(value: BodyValue, out: &mut [u8]) -> Result<Bytes, Refusal>
    ensures value { result ≡ write_answer value out.old }
    ensures out_after { out.new ≡ write_bytes value out.old }
{
    let size = value.size();
    if out.len() < size.0 {
        return output_short();
    }
    put_value(value, out);
    Ok(size)
}
