//! An actor at its inbox.
use case_posts::{Counted, Wire};
use realm_actor::Actor;
use realm_inbox::Inbox;

/// An actor whose words are counted, and whose transports are flags.
pub type Acting = Actor<Wire, Counted>;

/// An actor, and the inbox whose posts it handles.
#[derive(Drop)]
pub struct Desk {
    pub actor: Acting,
    pub inbox: Inbox<Wire>,
}
