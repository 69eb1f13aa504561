// What the sender answers. (Its export is the crate `sender`.)
ghost use Rattle.std.specs.Prelude.{◌≡◌};
ghost use Rattle.ugbariteyo.specs.Send.{sent_answer};

use crate::zero::no_refusal;
use octets::count::Bytes;
use rules::refusal::Refusal;

// What reading needs beside the bytes: whether a SecurityHeader stands first in them.
#[repr(C)]
#[derive(Clone, Copy)]
pub struct UgbSent {
    pub refusal: Refusal,
    pub length: Bytes,
    pub security_first: bool,
}

// (No `From`: it takes two values.)
#[tactic(auto, unfolding(crate::specs::Send::sent_answer))]
pub fn sent_answer(output: Result<Bytes, Refusal>, security_first: bool) -> UgbSent
    ensures { result ≡ sent_answer security_first output }
{
    match output {
        Err(refusal) => UgbSent {
            refusal,
            length: Bytes(0),
            security_first: false,
        },
        Ok(length) => UgbSent {
            refusal: no_refusal(),
            length,
            security_first,
        },
    }
}
