// The values of a send request whose default is no 0, or that depend on more than themselves.
ghost use Rattle.std.specs.Prelude.{◌≡◌, not, length, eqb};
ghost use Rattle.requests.specs.Defaults.{correlation_of, delivery, encryption, or_largest, priority, time_to_live, time_to_queue};

use crate::request::{Request, RequestGiven};
use rules::section::CorrelationId;

const PRIORITY: u32 = 3;

// 002 has no absent time to queue: 0 stands for it.
#[tactic(auto, unfolding(crate::specs::Defaults::or_largest))]
fn or_largest(time: u32) -> u32
    ensures { result ≡ or_largest time }
{
    if time == 0 { 0xFFFFFFFF } else { time }
}

impl Request {
    pub fn priority(&self) -> u32
        ensures { result ≡ priority self.now }
    {
        self.priority.unwrap_or(PRIORITY)
    }

    // A transaction makes delivery 1, but only after step 1.
    #[tactic(auto, unfolding(crate::specs::Defaults::delivery))]
    pub fn delivery(&self) -> u32
        ensures { result ≡ delivery self.now }
    {
        if self.transaction {
            1
        } else {
            self.delivery.unwrap_or(0)
        }
    }

    pub fn time_to_queue(&self) -> u32
        ensures { result ≡ time_to_queue self.now }
    {
        or_largest(self.time_to_queue)
    }

    // It has no default: 0 stays 0.
    pub fn time_to_live(&self) -> u32
        ensures { result ≡ time_to_live self.now }
    {
        self.time_to_live
    }

    // The CorrelationID, or 20 zero bytes where it is absent.
    pub fn correlation_id(&self) -> CorrelationId
        ensures { result ≡ correlation_of self.now }
    {
        self.correlation_id.unwrap_or([0; 20])
    }
}

impl RequestGiven<'_> {
    // Encryption without a key counts as not asked.
    #[tactic(auto, unfolding(crate::specs::Defaults::encryption))]
    pub fn encryption(&self) -> bool
        ensures { result ≡ encryption self.now.request self.now.encryption_key.now }
    {
        self.request.encryption && !self.encryption_key.is_empty()
    }
}
