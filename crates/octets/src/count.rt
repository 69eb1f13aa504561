// Counts of bytes and counts of 16-bit units, which the source documents keep apart.
ghost use Rattle.std.specs.Prelude.{◌≡◌, ◌*◌, ◌/◌, min};

// A count of bytes, or an offset in bytes.
#[repr(C)]
#[derive(Clone, Copy, PartialEq, Eq, PartialOrd, Ord, Debug, Default)]
pub struct Bytes(pub usize);

// A count of 16-bit units.
#[repr(C)]
#[derive(Clone, Copy, PartialEq, Eq, PartialOrd, Ord, Debug, Default)]
pub struct Units(pub u32);

impl Units {
    // The one conversion: so many units take twice as many bytes.
    pub fn bytes(self) -> Bytes
        ensures { result.0 ≡ 2 * self.0 }
    {
        Bytes(2 * self.0 as usize)
    }
}

impl Bytes {
    // The way back: how many whole units so many bytes hold. More than the type can count are counted as its most.
    pub fn units(self) -> Units
        ensures { result.0 ≡ min 4294967295 (self.0 / 2) }
    {
        Units(u32::try_from(self.0 / 2).unwrap_or(u32::MAX))
    }
}

pub fn smaller(a: Bytes, b: Bytes) -> Bytes
    ensures { result.0 ≡ min a.0 b.0 }
{
    Bytes(a.0.min(b.0))
}
