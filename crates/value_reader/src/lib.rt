#![tactic(auto)]
// A body as one number, read and written, for C. In an archive of its own, where the reader has this one caller and
// becomes part of it. No enum and no NaN passes: a value is its BodyType and its bits.
ghost use Rattle.std.specs.Prelude.{◌≡◌};
ghost use Rattle.ugbariteyo.specs.Output.{output_answer};
ghost use Rattle.values.specs.Read.{read_value, value_of};
ghost use Rattle.value_reader.specs.Answer.{given, given_answer, given_bytes, no_value, value_answer};

use octets::count::Bytes;
use rules::refusal::Refusal;
use ugbariteyo::output::UgbOutput;
use ugbariteyo::zero::no_refusal;
use values::read::{read_value, value_of, value_of_bits};
use values::value::BodyValue;
use values::write::write_value;

#[repr(C)]
#[derive(Clone, Copy, Default)]
pub struct UgbBodyValue {
    pub body_type: u32,
    pub bits: u64,
}

#[repr(C)]
#[derive(Clone, Copy)]
pub struct UgbValueRead {
    pub refusal: Refusal,
    pub value: UgbBodyValue,
}

// (A function, since its contract and an edit name it.)
fn no_value() -> UgbBodyValue
    ensures { result ≡ no_value }
{
    UgbBodyValue::default()
}

impl From<Result<BodyValue, Refusal>> for UgbValueRead {
    #[tactic(auto, unfolding(crate::specs::Answer::value_answer))]
    fn from(read: Result<BodyValue, Refusal>) -> Self
        ensures { result ≡ value_answer read }
    {
        match read {
            Err(refusal) => UgbValueRead {
                refusal,
                value: no_value(),
            },
            Ok(value) => UgbValueRead {
                refusal: no_refusal(),
                value: UgbBodyValue {
                    body_type: value.body_type(),
                    bits: value.bits(),
                },
            },
        }
    }
}

#[unsafe(no_mangle)]
pub extern "C" fn ugb_read_value(s: &[u8], security_first: bool) -> UgbValueRead
    ensures { result ≡ value_answer (read_value security_first s.now) }
{
    UgbValueRead::from(read_value(s, security_first))
}

#[unsafe(no_mangle)]
pub extern "C" fn ugb_value_of(body_type: u32, body: &[u8]) -> UgbValueRead
    ensures { result ≡ value_answer (value_of body_type body.now) }
{
    UgbValueRead::from(value_of(body_type, body))
}

// A struct whose type is none of the four is no value: 60.
#[tactic(auto, unfolding(crate::specs::Answer::given, crate::specs::Answer::given_answer, crate::specs::Answer::given_bytes))]
fn write_given(value: UgbBodyValue, out: &mut [u8]) -> Result<Bytes, Refusal>
    ensures value { result ≡ given_answer (given value) out.old }
    ensures out_after { out.new ≡ given_bytes (given value) out.old }
{
    let own = value_of_bits(value.body_type, value.bits)?;
    write_value(own, out)
}

#[unsafe(no_mangle)]
pub extern "C" fn ugb_write_value(value: UgbBodyValue, out: &mut [u8]) -> UgbOutput
    ensures value { result ≡ output_answer (given_answer (given value) out.old) }
    ensures out_after { out.new ≡ given_bytes (given value) out.old }
{
    UgbOutput::from(write_given(value, out))
}
