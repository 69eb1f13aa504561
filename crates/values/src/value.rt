// A body that is a single number: one of four kinds, by BodyType, and the number.
ghost use Rattle.std.specs.Prelude.{◌≡◌, ◌^◌, ◌<◌};
ghost use Rattle.values.specs.Value.{Decodes, bits_of, body_type, size_of, type_of, value_from};

use crate::bits::{binary_bits, binary_of};
use octets::count::Bytes;
use rules::refusal::Cause;

// A float: the number, or a NaN's bit pattern, since the language's own float has one NaN and keeps no payload. (No
// `Result`: a NaN is no error.)
#[derive(Clone, Copy)]
pub enum Binary<F, B> {
    Number(F),
    Nan(B),
}

pub type Binary32 = Binary<f32, u32>;

pub type Binary64 = Binary<f64, u64>;

// The four kinds, each by its BodyType and its name in MS-MQMQ 2.2.12.
#[derive(Clone, Copy, PartialEq, Eq, Debug)]
pub(crate) enum Kind {
    I4 = 3,
    R4 = 4,
    R8 = 5,
    Ui4 = 19,
}

impl Kind {
    #[tactic(auto, unfolding(crate::specs::Value::type_of))]
    pub(crate) fn body_type(self) -> u32
        ensures { result ≡ type_of self }
    {
        self as u32
    }

    // How many bytes the body has.
    pub(crate) fn size(self) -> Bytes
        ensures { result.0 ≡ size_of (type_of self) }
    {
        size_of(self.body_type())
    }
}

// By BodyType; 60 for any other number.
impl TryFrom<u32> for Kind {
    type Error = Cause;

    ghost try_from_gives = { Decodes };

    #[tactic(auto, unfolding(crate::specs::Value::type_of, crate::specs::Value::body_types, rules::specs::Listed::listed))]
    fn try_from(body_type: u32) -> Result<Self, Cause> {
        match body_type {
            BodyValue::VT_I4 => Ok(Kind::I4),
            BodyValue::VT_R4 => Ok(Kind::R4),
            BodyValue::VT_R8 => Ok(Kind::R8),
            BodyValue::VT_UI4 => Ok(Kind::Ui4),
            _ => Err(Cause::BodyType),
        }
    }
}

#[derive(Clone, Copy)]
pub enum BodyValue {
    I32(i32),
    U32(u32),
    F32(Binary32),
    F64(Binary64),
}

impl BodyValue {
    // The BodyType of each kind, a number as C and a section have it.
    pub const VT_I4: u32 = Kind::I4 as u32;

    pub const VT_R4: u32 = Kind::R4 as u32;

    pub const VT_R8: u32 = Kind::R8 as u32;

    pub const VT_UI4: u32 = Kind::Ui4 as u32;

    #[tactic(auto, unfolding(crate::specs::Value::body_type, crate::specs::Value::type_of))]
    pub(crate) fn kind(self) -> Kind
        ensures { type_of result ≡ body_type self }
    {
        match self {
            Self::I32(_) => Kind::I4,
            Self::U32(_) => Kind::Ui4,
            Self::F32(_) => Kind::R4,
            Self::F64(_) => Kind::R8,
        }
    }

    pub fn body_type(self) -> u32
        ensures { result ≡ body_type self }
    {
        self.kind().body_type()
    }

    // How many bytes the body has.
    pub fn size(self) -> Bytes
        ensures { result.0 ≡ size_of (body_type self) }
    {
        self.kind().size()
    }

    // The body as one number.
    #[tactic(auto, unfolding(crate::specs::Value::bits_of))]
    pub fn bits(self) -> u64
        ensures { result ≡ bits_of self }
    {
        match self {
            Self::I32(n) => n.cast_unsigned() as u64,
            Self::U32(n) => n as u64,
            Self::F32(x) => binary_bits(x) as u64,
            Self::F64(x) => binary_bits(x),
        }
    }
}

// The bytes of a body of this type: 8 for a 64-bit float, else 4. (Any number has an answer, so this asks for no `Kind`.)
#[tactic(auto, unfolding(crate::specs::Value::size_of))]
pub fn size_of(body_type: u32) -> Bytes
    ensures { result.0 ≡ size_of body_type }
{
    if body_type == BodyValue::VT_R8 {
        return Bytes(8);
    }
    Bytes(4)
}

// The value of a kind with these bits.
#[tactic(auto, unfolding(crate::specs::Value::value_from, crate::specs::Value::size_of, crate::specs::Value::type_of))]
pub(crate) fn value_from(kind: Kind, bits: u64) -> BodyValue
    requires { bits < 256 ^ size_of (type_of kind) }
    ensures { result ≡ value_from (type_of kind) bits }
{
    let low = (bits % 4294967296) as u32;
    match kind {
        Kind::I4 => BodyValue::I32(low.cast_signed()),
        Kind::Ui4 => BodyValue::U32(low),
        Kind::R4 => BodyValue::F32(binary_of(low)),
        Kind::R8 => BodyValue::F64(binary_of(bits)),
    }
}
