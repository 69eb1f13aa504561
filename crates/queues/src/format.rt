// The queue format type: 004's m_qft and m_SuffixAndFlags, and the numbers that belong to them.
ghost use Rattle.std.specs.Prelude.{◌≡◌};
ghost use Rattle.queues.specs.Format.{flags, pair_passes, queue_format, suffix};

// As C has it. (The numbers are no enums: C hands any in, and the steps refuse those that name no type or suffix.)
#[repr(C)]
#[derive(Clone, Copy, PartialEq, Eq, Debug, Default)]
pub struct QueueFormat {
    pub kind: u8,
    pub suffix_and_flags: u8,
}

impl QueueFormat {
    pub const TYPE_UNKNOWN: u8 = 0x00;

    pub const TYPE_PUBLIC: u8 = 0x01;

    pub const TYPE_PRIVATE: u8 = 0x02;

    pub const TYPE_DIRECT: u8 = 0x03;

    pub const TYPE_MACHINE: u8 = 0x04;

    pub const TYPE_CONNECTOR: u8 = 0x05;

    pub const TYPE_DL: u8 = 0x06;

    pub const TYPE_MULTICAST: u8 = 0x07;

    pub const TYPE_SUBQUEUE: u8 = 0x08;

    pub const SUFFIX_TYPE_NONE: u8 = 0x00;

    pub const SUFFIX_TYPE_JOURNAL: u8 = 0x01;

    pub const SUFFIX_TYPE_DEADLETTER: u8 = 0x02;

    pub const SUFFIX_TYPE_DEADXACT: u8 = 0x03;

    pub const SUFFIX_TYPE_XACTONLY: u8 = 0x04;

    pub const SUFFIX_TYPE_SUBQUEUE: u8 = 0x05;

    pub const FLAG_NOT_SYSTEM: u8 = 0x00;

    pub const FLAG_SYSTEM: u8 = 0x80;

    pub fn new(kind: u8, suffix_and_flags: u8) -> Self
        ensures { result ≡ queue_format kind suffix_and_flags }
    {
        Self {
            kind,
            suffix_and_flags,
        }
    }

    // The suffix type: the low nibble.
    #[tactic(auto, unfolding(crate::specs::Format::suffix))]
    pub fn suffix(self) -> u8
        ensures { result ≡ suffix self }
    {
        let byte = self.suffix_and_flags;
        byte % 16
    }

    // The flags: the high nibble, in its place.
    #[tactic(auto, unfolding(crate::specs::Format::flags))]
    pub fn flags(self) -> u8
        ensures { result ≡ flags self }
    {
        let byte = self.suffix_and_flags;
        byte / 16 * 16
    }

    // Whether the suffix goes with the flags and the type.
    #[tactic(auto, unfolding(crate::specs::Format::pair_passes, rules::specs::Listed::listed))]
    pub fn pair_passes(self) -> bool
        ensures { result ≡ pair_passes self }
    {
        let kind = self.kind;
        let is_plain = self.flags() == Self::FLAG_NOT_SYSTEM;
        let is_system = self.flags() == Self::FLAG_SYSTEM;
        match self.suffix() {
            Self::SUFFIX_TYPE_NONE => is_plain & (kind != Self::TYPE_MACHINE),
            Self::SUFFIX_TYPE_JOURNAL => is_system
                & !matches!(kind, Self::TYPE_CONNECTOR..=Self::TYPE_MULTICAST),
            Self::SUFFIX_TYPE_DEADLETTER => is_system
                & !matches!(
                    kind,
                    Self::TYPE_PUBLIC
                        | Self::TYPE_PRIVATE
                        | Self::TYPE_CONNECTOR..=Self::TYPE_MULTICAST
                ),
            Self::SUFFIX_TYPE_DEADXACT => is_system
                & matches!(kind, Self::TYPE_DIRECT | Self::TYPE_MACHINE),
            Self::SUFFIX_TYPE_XACTONLY => (is_plain | is_system) & (kind == Self::TYPE_CONNECTOR),
            Self::SUFFIX_TYPE_SUBQUEUE => is_plain & (kind == Self::TYPE_SUBQUEUE),
            _ => false,
        }
    }
}
