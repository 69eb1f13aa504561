// The message classes.
ghost use Rattle.std.specs.Prelude.{◌≡◌};
ghost use Rattle.rules.specs.Listed.{listed, classes};

// Whether 01 lists the class. In 01's order, so that the gaps (0x8008, 0xC003) can be seen.
pub fn is_listed(class: u16) -> bool
    ensures { result ≡ listed classes class }
{
    match class {
        0x0000..=0x0002 => true,
        0x4000 => true,
        0x8000..=0x8007 => true,
        0x8009..=0x800B => true,
        0xC000..=0xC002 => true,
        0xC004 => true,
        _ => false,
    }
}
