//! A count that only contracts read.
ghost use Rattle.std.specs.Prelude.{◌≡◌, ℕ, ◌+◌};

use std::marker::Model;
use std::mem;
use std::snapshot::Snapshot;

/// As many links as were counted. A value of it is only looked at by a snapshot.
#[derive(Drop)]
pub(crate) enum CountTrail {
    Begun,
    Longer(Snapshot<CountTrail>),
}

/// How often something happened. It takes no bytes, so nothing that runs can depend on it.
#[derive(Drop)]
pub struct GhostCount {
    trail: Snapshot<CountTrail>,
}

impl Model for GhostCount {
    ghost use Rattle.std.specs.Prelude.{ℕ};
    ghost use Rattle.ghost_state.specs.GhostCount.{links};

    ghost Value = { ℕ };

    ghost view = { λ c. links c.trail.value };
}

impl GhostCount {
    /// None so far.
    pub fn new() -> GhostCount
        ensures { result ≡ 0 }
    {
        GhostCount {
            trail: Snapshot::of(&CountTrail::Begun),
        }
    }

    /// One more.
    pub fn tick(&mut self)
        ensures { self.new ≡ self.old + 1 }
    {
        let before = mem::replace(&mut self.trail, Snapshot::of(&CountTrail::Begun));
        self.trail = Snapshot::of(&CountTrail::Longer(before));
    }
}
