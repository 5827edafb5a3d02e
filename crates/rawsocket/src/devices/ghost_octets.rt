//! Octets that passed, in a list that only clauses read.
ghost use Rattle.std.specs.Prelude.{◌≡◌, ◌++◌};
ghost use Rattle.ghost_state.specs.GhostList.{items_of};

use ghost_state::GhostList;
use std::snapshot::Snapshot;

/// These passed too. The loop is for proofs alone: an optimizing build drops it.
pub(crate) fn add_all(passed: &mut GhostList<u8>, octets: &[u8])
    ensures { items_of passed.new ≡ items_of passed.old ++ octets.now }
{
    for octet in octets {
        passed.add(Snapshot::of(octet));
    }
}
