// Fields, stored at an offset of an output that has room for them. (The offset is the papers': a slice from it on would hide it.)
ghost use Rattle.std.specs.Prelude.{◌≡◌, ◌+◌, ◌≤◌, length};
ghost use Rattle.octets.specs.Over.{over_at};

use octets::count::Bytes;
use octets::over::copy;

pub(crate) fn write_field<const N: usize>(out: &mut [u8], at: Bytes, field: [u8; N])
    requires { at.0 + N ≤ length out.old }
    ensures { out.new ≡ over_at at.0 field.entry out.old }
{
    let start = at.0;
    copy(&field, &mut out[start..start + N]);
}
