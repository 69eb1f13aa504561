// The section that a request would become: its body, and whether a SecurityHeader stands first.
ghost use Rattle.std.specs.Prelude.{◌≡◌, length};
ghost use Rattle.requests.specs.Defaults.{allocation, body_of};
ghost use Rattle.requests.specs.Section.{security_first};

use crate::request::{Request, RequestGiven};
use octets::count::Bytes;

impl Request {
    // An absent body has allocation 0.
    pub fn allocation(&self) -> Bytes
        ensures { result.0 ≡ allocation self.now }
    {
        self.body.unwrap_or(Bytes(0))
    }
}

impl RequestGiven<'_> {
    // An absent body is empty, whatever is lent.
    #[tactic(auto, unfolding(crate::specs::Defaults::body_or))]
    pub fn body_size(&self) -> Bytes
        ensures { result.0 ≡ length (body_of self.now.request self.now.body.now) }
    {
        match self.request.body {
            None => Bytes(0),
            Some(_) => Bytes(self.body.len()),
        }
    }

    // Whether a SecurityHeader is written.
    #[tactic(auto, unfolding(crate::specs::Section::security_first))]
    pub fn security_first(&self) -> bool
        ensures { result ≡ security_first self.now.request self.now.sender_id.now self.now.encryption_key.now
            self.now.signature.now self.now.sender_cert.now }
    {
        !self.sender_id.is_empty()
            || !self.encryption_key.is_empty()
            || self.kept_bytes().0 != 0
            || !self.sender_cert.is_empty()
    }
}
