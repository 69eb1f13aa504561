// A portion. Bytes that are only counted are not looked at.
ghost use Rattle.std.specs.Prelude.{◌≡◌, ◌+◌, ◌-◌, min};
ghost use Rattle.portions.specs.Fed.{before_provider, name_then, past_security, places_after, progress_then};
ghost use Rattle.portions.specs.Portion.{portion_answer, portion_state, portion_told};
ghost use Rattle.portions.specs.State.{reach};
ghost use Rattle.portions.specs.Window.{shown};

use crate::name::with_bytes;
use crate::place::{Places, places_of};
use crate::properties::{hold_properties, label_length, past_label};
use crate::state::{Progress, State};
use crate::window::{passed, show};
use octets::count::Bytes;
use rules::refusal::{Cause, Refusal};

// No answer depends on more bytes: the count stops here, so that it never wraps.
const REACH: usize = 16777216;

pub fn received_then(received: Bytes, n: Bytes) -> Bytes
    ensures { result.0 ≡ min reach (received.0 + n.0) }
{
    Bytes(received.0.saturating_add(n.0).min(REACH))
}

// Nothing of a SecurityHeader is still to come.
#[tactic(auto, unfolding(crate::specs::Fed::past_security))]
pub fn past_security(security_first: bool, received: Bytes, properties_at: Bytes) -> bool
    ensures { result ≡ past_security security_first received.0 properties_at.0 }
{
    !security_first || 4 <= received.0.saturating_sub(properties_at.0)
}

// n bytes more end before provider info, and the head is there: they are only counted. (Key, signature and certificate
// are most of a SecurityHeader.)
#[tactic(auto, unfolding(crate::specs::Fed::before_provider))]
pub fn before_provider(received: Bytes, name_at: Bytes, n: Bytes) -> bool
    ensures { result ≡ before_provider received.0 name_at.0 n.0 }
{
    18 <= received.0 && n.0 <= name_at.0.saturating_sub(4).saturating_sub(received.0)
}

// Known once the SecurityHeader's 16 fixed bytes are there; they do not change any more.
#[tactic(auto, unfolding(crate::specs::Fed::places_after))]
fn places_after(progress: Progress, head: &[u8]) -> Places
    ensures { result ≡ places_after progress head.now }
{
    if progress.received.0 < 16 {
        return places_of(progress.security_first, head);
    }
    progress.places
}

// The bytes of the provider name that come with a portion.
fn name_then(places: Places, received: Bytes, bytes: &[u8]) -> &[u8]
    ensures { result.now ≡ name_then places received.0 bytes.now }
{
    let came = received.0.saturating_sub(places.name_at.0);
    let from = places.name_at.0.saturating_sub(received.0);
    passed(
        bytes,
        Bytes(from),
        Bytes(places.name_size.0.saturating_sub(came)),
    )
}

// Head, provider type and name go on by a portion. (No `&mut State`, since C lends its members.)
#[tactic(auto, unfolding(crate::specs::Fed::progress_then))]
pub fn gather_security(
    progress: Progress,
    head: &mut [u8; 18],
    provider_type: &mut [u8; 4],
    bytes: &[u8],
) -> Progress
    ensures value { result ≡ progress_then progress head.new bytes.now }
    ensures head_after { head.new ≡ shown head.old 0 progress.received.0 bytes.now }
    ensures provider_type_after { provider_type.new
        ≡ shown provider_type.old (result.places.name_at.0 - 4) progress.received.0 bytes.now }
{
    let received = progress.received;
    show(head, Bytes(0), received, bytes);
    let places = places_after(progress, head);
    let type_at = places.name_at.0.saturating_sub(4);
    show(provider_type, Bytes(type_at), received, bytes);
    let name = with_bytes(progress.name, name_then(places, received, bytes));
    Progress {
        finished: false,
        received: received_then(received, Bytes(bytes.len())),
        places,
        name,
        ..progress
    }
}

impl State {
    // Takes the next bytes. Refused with 14 after the finish, and then the state stays as it is.
    #[tactic(auto, unfolding(rules::specs::Refusal::number, crate::specs::Portion::portion_told, crate::specs::Portion::portion_answer, crate::specs::Portion::portion_state, crate::specs::Fed::fed, crate::specs::Fed::counted, crate::specs::Fed::gathered,))]
    pub fn portion(&mut self, bytes: &[u8]) -> Result<(), Refusal>
        ensures value { result ≡ portion_told (portion_answer self.old bytes.now) }
        ensures state_after { self.new ≡ portion_state self.old bytes.now }
    {
        if self.progress.finished {
            return Err(Refusal::at_start(Cause::AfterTheFinish));
        }
        let received = self.progress.received;
        let at = self.progress.places.properties_at;
        let n = Bytes(bytes.len());
        if past_label(received, at, label_length(&self.properties)) {
            self.progress.received = received_then(received, n);
            return Ok(());
        }
        if past_security(self.progress.security_first, received, at) {
            hold_properties(&mut self.properties, at, received, bytes);
            self.progress.received = received_then(received, n);
            return Ok(());
        }
        if before_provider(received, self.progress.places.name_at, n) {
            self.progress.received = received_then(received, n);
            return Ok(());
        }
        let after = gather_security(
            self.progress,
            &mut self.head,
            &mut self.provider_type,
            bytes,
        );
        hold_properties(
            &mut self.properties,
            after.places.properties_at,
            received,
            bytes,
        );
        self.progress = after;
        Ok(())
    }
}
