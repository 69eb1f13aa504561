// The bytes of a portion that are held or judged, where so many bytes came before it.
ghost use Rattle.std.specs.Prelude.{◌≡◌, ◌+◌, ◌-◌, take, drop};
ghost use Rattle.portions.specs.Window.{shown};

use octets::count::Bytes;
use octets::over::copy;

// Puts those that belong into a window, which begins at an offset in all that comes.
pub(crate) fn show(window: &mut [u8], at: Bytes, received: Bytes, portion: &[u8])
    ensures { window.new ≡ shown window.old at.0 received.0 portion.now }
{
    let skip = at.0.saturating_sub(received.0).min(portion.len());
    let have = received.0.saturating_sub(at.0).min(window.len());
    copy(&portion[skip..], &mut window[have..]);
}

// The bytes from an offset, so many at the most.
pub(crate) fn passed(portion: &[u8], from: Bytes, most: Bytes) -> &[u8]
    ensures { result.now ≡ take most.0 (drop from.0 portion.now) }
{
    let rest = &portion[from.0.min(portion.len())..];
    &rest[..most.0.min(rest.len())]
}

// The bytes of a portion up to the end of what is held, so many from `at` on in all that comes.
pub(crate) fn up_to(portion: &[u8], at: Bytes, received: Bytes, held: Bytes) -> &[u8]
    ensures { result.now ≡ take (at.0 + held.0 - received.0) portion.now }
{
    let skip = at.0.saturating_sub(received.0);
    let have = received.0.saturating_sub(at.0);
    let end = skip.saturating_add(held.0.saturating_sub(have));
    &portion[..end.min(portion.len())]
}
