// The support copy of a section, and whether a proposed copy is it.
ghost use Rattle.std.specs.Prelude.{◌≡◌, true, ◌↔◌};
ghost use Rattle.rules.specs.Support.{IsSupportCopy, support_answer, support_bytes};
ghost use Rattle.ugbariteyo.specs.Output.{output_answer};

use crate::output::UgbOutput;
use support::copy::support_copy;
use support::proposed::is_support_copy;

pub fn ugb_support_copy(s: &[u8], security_first: bool, out: &mut [u8]) -> UgbOutput
    ensures value { result ≡ output_answer (support_answer security_first s.now out.old) }
    ensures out_after { out.new ≡ support_bytes security_first s.now out.old }
{
    UgbOutput::from(support_copy(s, security_first, out))
}

pub fn ugb_is_support_copy(s: &[u8], security_first: bool, proposed: &[u8]) -> bool
    ensures { (result ≡ true) ↔ IsSupportCopy security_first s.now proposed.now }
{
    is_support_copy(s, security_first, proposed)
}
