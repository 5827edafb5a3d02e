//! Histories of numbers, whose items are known to be owed without any memory.
ghost use Rattle.std.specs.Prelude.{◌≡◌, ◌+◌, ◌<◌, slice_get, Some};
ghost use Rattle.cases_outbox.specs.Counting.{counted};

use outbox_queue::Owed;

/// A history that owes each connection so many numbers from the first, one after another, and cut each or none.
#[derive(Clone, Copy, Drop)]
pub struct Numbers {
    pub first: u64,
    pub count: u64,
    pub is_cut: bool,
}

impl Owed<u64> for Numbers {
    ghost use Rattle.std.specs.Prelude.{◌≡◌, ⊤};
    ghost use Rattle.std.proofs.Common.{refl, ◌∙◌};
    ghost use Rattle.cases_outbox.specs.Counting.{Same, owed, owes_on};

    ghost begins = { Same };

    ghost owed = { owed };

    ghost begins_itself = { λ h. refl };

    ghost begins_on = { λ h k l p q. p ∙ q };

    ghost owes_on = { owes_on };

    ghost is_of = { λ h chronicle. ⊤ };

    ghost is_over = { λ h conn. ⊤ };

    ghost was_cut = { λ h conn. h.is_cut };
}
