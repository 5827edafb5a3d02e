//! What a realm's actor was given and gave back, and its inbox in the end.
use broker_threads::{Acted, ActorThread};
use realm_inbox::{Door, Inbox, Shut};
use std::snapshot::Snapshot;

/// How a realm ran, from its actor's beginning until its inbox was emptied. A value of it is only looked at by a snapshot, and takes no bytes.
#[derive(Drop)]
pub struct RealmRun<S: Shut> {
    /// What its actor's thread was given.
    pub began: Snapshot<ActorThread<S>>,
    /// The door of its inbox, before the stops that end the thread.
    pub door: Snapshot<Door<S>>,
    /// What that gave back.
    pub ended: Snapshot<Acted<S>>,
    /// Its inbox, once that was emptied.
    pub inbox: Snapshot<Inbox<S>>,
}
