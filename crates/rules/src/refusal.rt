// Refusals: why, by 01's number, and the place of what failed.
ghost use Rattle.std.specs.Prelude.{◌≡◌, ◌≢◌, MatchResult};
ghost use Rattle.rules.specs.Refusal.{number, refusal};
ghost use Rattle.rules.specs.declared.refusal.Cause.{Cause};

use octets::count::Bytes;

// What fails in the steps of 01 and 02, each by its number there.
#[derive(Clone, Copy, PartialEq, Eq, Debug)]
pub enum Cause {
    InputShort = 1,
    SenderKind = 2,
    AuOrAs = 3,
    EmptyOrDpClear = 4,
    CertificateSize = 5,
    Identity = 6,
    Provider = 7,
    AboveTheLimit = 8,
    LabelLength = 9,
    Class = 10,
    Allocation = 11,
    Label = 12,
    OutputShort = 13,
    AfterTheFinish = 14,
    BadRecord = 15,
    TooManyRecords = 16,
    ValueOutOfRange = 20,
    Privacy = 21,
    PrivacyOnADirectQueue = 22,
    AlgorithmAbsent = 23,
    HashAbsent = 24,
    RequestIdentity = 25,
    RequestProvider = 26,
    SplitNumber = 27,
    PartTooLarge = 28,
    Retired = 29,
    QueueType = 30,
    QueueSuffix = 31,
    QueueValue = 32,
    QueueString = 33,
    BodyType = 60,
    BodySize = 61,
    BodyEncrypted = 62,
}

impl Cause {
    #[tactic(auto, unfolding(crate::specs::Refusal::number))]
    pub fn number(self) -> u32
        ensures { result ≡ number self }
    {
        self as u32
    }
}

// The cause that has a number; a number that is none's comes back.
impl TryFrom<u32> for Cause {
    type Error = u32;

    ghost try_from_gives = { λ n r. MatchResult r (λ c. number c ≡ n) (λ e. (e ≡ n) × ((c : Cause) → number c ≢ n)) };

    #[tactic(auto, unfolding(crate::specs::Refusal::number))]
    fn try_from(number: u32) -> Result<Cause, u32> {
        match number {
            1 => Ok(Cause::InputShort),
            2 => Ok(Cause::SenderKind),
            3 => Ok(Cause::AuOrAs),
            4 => Ok(Cause::EmptyOrDpClear),
            5 => Ok(Cause::CertificateSize),
            6 => Ok(Cause::Identity),
            7 => Ok(Cause::Provider),
            8 => Ok(Cause::AboveTheLimit),
            9 => Ok(Cause::LabelLength),
            10 => Ok(Cause::Class),
            11 => Ok(Cause::Allocation),
            12 => Ok(Cause::Label),
            13 => Ok(Cause::OutputShort),
            14 => Ok(Cause::AfterTheFinish),
            15 => Ok(Cause::BadRecord),
            16 => Ok(Cause::TooManyRecords),
            20 => Ok(Cause::ValueOutOfRange),
            21 => Ok(Cause::Privacy),
            22 => Ok(Cause::PrivacyOnADirectQueue),
            23 => Ok(Cause::AlgorithmAbsent),
            24 => Ok(Cause::HashAbsent),
            25 => Ok(Cause::RequestIdentity),
            26 => Ok(Cause::RequestProvider),
            27 => Ok(Cause::SplitNumber),
            28 => Ok(Cause::PartTooLarge),
            29 => Ok(Cause::Retired),
            30 => Ok(Cause::QueueType),
            31 => Ok(Cause::QueueSuffix),
            32 => Ok(Cause::QueueValue),
            33 => Ok(Cause::QueueString),
            60 => Ok(Cause::BodyType),
            61 => Ok(Cause::BodySize),
            62 => Ok(Cause::BodyEncrypted),
            _ => Err(number),
        }
    }
}

// As C has it. (The number is no `Cause`: C hands refusals in, with any number.)
#[repr(C)]
#[derive(Clone, Copy, PartialEq, Eq, Debug, Default)]
pub struct Refusal {
    pub number: u32,
    pub place: Bytes,
}

impl Refusal {
    pub fn new(cause: Cause, place: Bytes) -> Self
        ensures { result ≡ refusal (number cause) place.0 }
    {
        Refusal {
            number: cause.number(),
            place,
        }
    }

    // Of what has no place of its own.
    pub fn at_start(cause: Cause) -> Self
        ensures { result ≡ refusal (number cause) 0 }
    {
        Refusal::new(cause, Bytes(0))
    }
}

// A step that failed, and where the header begins that it looks at.
#[derive(Clone, Copy, PartialEq, Eq, Debug)]
pub struct Failed {
    pub cause: Cause,
    pub header: Bytes,
}
