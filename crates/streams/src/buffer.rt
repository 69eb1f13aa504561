// The buffer of a program that reads and writes as it goes.
ghost use Rattle.std.specs.Prelude.{◌≡◌, length};

// Large enough that few calls are made. The length is promised, since lending the array as a slice needs it.
pub fn large_buffer() -> [u8; 65536]
    ensures { 65536 ≡ length result }
{
    [0; 65536]
}
