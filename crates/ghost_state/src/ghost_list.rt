//! A list that only contracts see.
ghost use Rattle.std.specs.Prelude.{◌≡◌, [], ◌∷◌, ◌++◌};
ghost use Rattle.ghost_state.specs.GhostList.{items_of};

use std::mem;
use std::snapshot::Snapshot;

// A list, the last member first. A value of it is only looked at by a snapshot.
#[derive(Drop)]
pub(crate) enum ListTrail<T> {
    Begun,
    Longer(Snapshot<ListTrail<T>>, Snapshot<T>),
}

/// A list that grows at its end and takes no bytes.
#[derive(Drop)]
pub struct GhostList<T> {
    trail: Snapshot<ListTrail<T>>,
}

impl<T> GhostList<T> {
    /// The empty list.
    pub fn new() -> GhostList<T>
        ensures { items_of result ≡ [] }
    {
        GhostList {
            trail: Snapshot::of(&ListTrail::Begun),
        }
    }

    /// One member more.
    pub fn add(&mut self, last: Snapshot<T>)
        ensures { items_of self.new ≡ items_of self.old ++ last.value ∷ [] }
    {
        let before = mem::replace(&mut self.trail, Snapshot::of(&ListTrail::Begun));
        self.trail = Snapshot::of(&ListTrail::Longer(before, last));
    }
}
