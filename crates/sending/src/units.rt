// The two parts of a section that are made for a request, out of 16-bit units: the label and the provider info.
ghost use Rattle.std.specs.Prelude.{◌≡◌, ℕ, [], ◌∷◌, ◌++◌, ◌+◌, ◌*◌, ◌<◌, ◌≤◌, get_or, length};
ghost use Rattle.octets.specs.Over.{over};
ghost use Rattle.octets.specs.Text.{unit_bytes};
ghost use Rattle.requests.specs.Section.{label_with};
ghost use Rattle.sending.specs.Send.{info_of};

use octets::count::Bytes;
use octets::number::{u16_bytes, u32_bytes};
use octets::over::copy;
use requests::request::RequestGiven;

// For the proof of a caller whose slice lies in a struct: of a slice that is lent alone it is known that units fit.
pub(crate) fn fit(units: &[u16])
    ensures { (i : ℕ) → get_or units.now i 0 < 65536 }
{}

// The units, each little-endian. (By index: of `chunks_exact_mut` a proof knows no element afterwards.)
fn write_units(units: &[u16], out: &mut [u8])
    requires { 2 * length units.now ≤ length out.old }
    ensures { out.new ≡ over (unit_bytes units.now) out.old }
{
    for (i, unit) in units.iter().enumerate() {
        copy(&u16_bytes(*unit), &mut out[2 * i..2 * i + 2]);
    }
}

// The units and a null behind them. Answers how many bytes that are.
fn write_text(units: &[u16], out: &mut [u8]) -> Bytes
    requires { 2 * length units.now + 2 ≤ length out.old }
    ensures result_value { result.0 ≡ 2 * length units.now + 2 }
    ensures out_after { out.new ≡ over (unit_bytes (units.now ++ (0 ∷ []))) out.old }
{
    let null = 2 * units.len();
    write_units(units, out);
    write_units(&[0], &mut out[null..]);
    Bytes(null + 2)
}

// The label of a title as cut: no label for none. Answers how many bytes it has.
pub(crate) fn write_label(title: &[u16], out: &mut [u8]) -> Bytes
    requires { 2 * length title.now + 2 ≤ length out.old }
    ensures result_value { result.0 ≡ length (label_with title.now) }
    ensures out_after { out.new ≡ over (label_with title.now) out.old }
{
    if title.len() == 0 {
        return Bytes(0);
    }
    write_text(title, out)
}

// Provider info is written only for a signature by another provider: its type, and its name with a null.
// Answers how many bytes it has.
pub(crate) fn write_provider_info(given: &RequestGiven<'_>, out: &mut [u8]) -> Bytes
    requires { length (info_of given.now) ≤ length out.old }
    ensures result_value { result.0 ≡ length (info_of given.now) }
    ensures out_after { out.new ≡ over (info_of given.now) out.old }
{
    if given.signature.len() == 0 {
        return Bytes(0);
    }
    if given.request.default_provider {
        return Bytes(0);
    }
    let provider_type = given.request.provider_type.unwrap_or(0);
    copy(&u32_bytes(provider_type), out);
    Bytes(4 + write_text(given.provider_name, &mut out[4..]).0)
}
