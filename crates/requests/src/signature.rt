// Step 5: the signature is the last (split number minus name length) bytes of those given.
ghost use Rattle.std.specs.Prelude.{◌≡◌, length};
ghost use Rattle.requests.specs.Defaults.{count, signature_of};

use crate::request::{Request, RequestGiven};
use octets::count::Bytes;

impl Request {
    // The count of step 5, of so many bytes given. A name longer than the split number leaves none.
    #[tactic(auto, unfolding(crate::specs::Defaults::signature_count))]
    pub fn signature_count(&self, given: Bytes) -> Bytes
        ensures { result.0 ≡ count self.now given.0 }
    {
        match self.split_number {
            None => given,
            Some(split) => Bytes(split.saturating_sub(self.provider_name_length) as usize),
        }
    }
}

impl RequestGiven<'_> {
    // How many bytes of the signature are kept.
    #[tactic(auto, unfolding(crate::specs::Defaults::signature_of))]
    pub fn kept_bytes(&self) -> Bytes
        ensures { result.0 ≡ length (signature_of self.now.request self.now.signature.now) }
    {
        let given = self.signature.len();
        let count = self.request.signature_count(Bytes(given));
        Bytes(given.min(count.0))
    }
}
