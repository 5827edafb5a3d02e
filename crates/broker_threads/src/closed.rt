//! A half of a stream that is used no more.
ghost use Rattle.std.specs.Prelude.{◌≡◌};

use std::snapshot::Snapshot;

/// What contracts saw last of a half of a stream that was let go of. It takes no bytes, and there is no other way to make one: so
/// nothing was read from that half, or written to it, behind this.
#[derive(Drop)]
pub struct Closed<D> {
    last: Snapshot<D>,
}

impl<D: Drop> Closed<D> {
    /// Lets go of the half.
    pub fn of(half: D) -> Closed<D>
        ensures { result.last.value ≡ half }
    {
        Closed {
            last: Snapshot::of(&half),
        }
    }

    /// What contracts saw last of it.
    pub fn into_last(self) -> Snapshot<D>
        ensures { result.value ≡ self.last.value }
    {
        self.last
    }
}
