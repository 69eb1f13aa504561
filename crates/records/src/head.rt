// The head of a record of the listing program's file: 8 bytes, and the section behind them.
ghost use Rattle.std.specs.Prelude.{◌≡◌};
ghost use Rattle.records.specs.Head.{head_bytes, next_head};

use octets::count::Bytes;
use octets::number::{u32_at, u32_bytes};

pub const HEAD: usize = 8;

// The longest section that a record may hold.
pub const LONGEST: usize = 32768;

// `length` is the section's.
#[derive(Clone, Copy)]
pub struct Head {
    pub security_first: bool,
    pub length: Bytes,
}

// The next head or record of a file: `End` where the file ends behind a whole record, `Stop` at a wrong or cut head or a cut
// section.
#[derive(Clone, Copy)]
pub enum Next<T> {
    End,
    Stop,
    Found(T),
}

// The head at the first byte of `s`, the rest of the file.
#[tactic(auto, unfolding(crate::specs::Head::next_head, crate::specs::Head::section_size))]
pub fn next_head(s: &[u8]) -> Next<Head>
    ensures { result ≡ next_head s.now }
{
    if s.is_empty() {
        return Next::End;
    }
    let [0x57, 0x52, first @ 0..=1, 0, _, _, _, _, section @ ..] = s else {
        return Next::Stop;
    };
    let length = u32_at(s, Bytes(4)) as usize;
    if LONGEST < length {
        return Next::Stop;
    }
    if section.len() < length {
        return Next::Stop;
    }
    Next::Found(Head {
        security_first: *first == 1,
        length: Bytes(length),
    })
}

// A head as its bytes. Of a length that does not fit its four bytes the rest is cut off.
pub fn head_bytes(head: Head) -> [u8; 8]
    ensures { result ≡ head_bytes head }
{
    let first = u8::from(head.security_first);
    let length = u32_bytes((head.length.0 % 4294967296) as u32);
    [
        0x57, 0x52, first, 0, length[0], length[1], length[2], length[3],
    ]
}
