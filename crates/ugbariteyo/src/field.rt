// The field that a refusal is about.
ghost use Rattle.std.specs.Prelude.{◌≡◌};
ghost use Rattle.fields.specs.Field.{refused_field};

use fields::field::FieldAt;
use fields::place::refused_field;
use rules::refusal::Refusal;

pub fn ugb_refused_field(s: &[u8], security_first: bool, refusal: Refusal) -> FieldAt
    ensures { result ≡ refused_field security_first s.now refusal }
{
    refused_field(s, security_first, refusal)
}
