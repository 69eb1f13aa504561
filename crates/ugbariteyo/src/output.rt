// What a call answers that writes to a lent output: the refusal, or the number of bytes written.
ghost use Rattle.std.specs.Prelude.{◌≡◌};
ghost use Rattle.ugbariteyo.specs.Output.{output_answer};

use crate::zero::no_refusal;
use octets::count::Bytes;
use rules::refusal::Refusal;

#[repr(C)]
#[derive(Clone, Copy)]
pub struct UgbOutput {
    pub refusal: Refusal,
    pub length: Bytes,
}

impl From<Result<Bytes, Refusal>> for UgbOutput {
    #[tactic(auto, unfolding(crate::specs::Output::output_answer))]
    fn from(output: Result<Bytes, Refusal>) -> Self
        ensures { result ≡ output_answer output }
    {
        match output {
            Err(refusal) => UgbOutput {
                refusal,
                length: Bytes(0),
            },
            Ok(length) => UgbOutput {
                refusal: no_refusal(),
                length,
            },
        }
    }
}
