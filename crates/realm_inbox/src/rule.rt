//! The rule of an inbox, and the steps under it.
use crate::act::Act;
use crate::letter::Post;
use crate::transport::Shut;
use chronicle::Name;
use crossbeam_channel::protocol::{Join, Lesson, Outcome, Protocol, Split};
use std::collections::LinkedList;
use std::marker::{Brand, PhantomData};
use wamp_ids::Conn;

/// What an end of an inbox knows: the chronicle of its realm, if one is picked, and more. No value of it is made.
pub enum InboxView<S: Shut> {
    /// The receiving end: which number is cut next, and what was received, the oldest first. The number 0 is the door's.
    Reader(Option<Name>, u64, LinkedList<Post<S>>),
    /// A seat: its number, and what was posted there, the oldest first.
    Seat(Option<Name>, u64, LinkedList<(Conn, Act<S>)>),
    /// The door: of each seat that it was shown, the number, and how many acts had been posted there; and the same of each stop that
    /// it has posted, as it was then.
    Door(Option<Name>, LinkedList<(u64, u64)>, LinkedList<LinkedList<(u64, u64)>>),
    /// The receiving end and a seat in one hand: what both know.
    Both(Option<Name>, u64, LinkedList<Post<S>>, Option<Name>, u64, LinkedList<(Conn, Act<S>)>),
    /// The door and a seat in one hand: what both know.
    Shown(
        Option<Name>,
        LinkedList<(u64, u64)>,
        LinkedList<LinkedList<(u64, u64)>>,
        Option<Name>,
        u64,
        LinkedList<(Conn, Act<S>)>,
    ),
    /// The receiving end and the door in one hand: what both know.
    Heard(
        Option<Name>,
        u64,
        LinkedList<Post<S>>,
        Option<Name>,
        LinkedList<(u64, u64)>,
        LinkedList<LinkedList<(u64, u64)>>,
    ),
    /// No end.
    Nobody,
}

/// The rule of an inbox: what was posted at a seat is what was received of it, and then what waits of it, and no
/// Join brings an outbox of another chronicle than the inbox's. A stop comes behind all that its door was shown.
pub struct InTurn;

impl<S: Shut> Protocol<Post<S>, InboxView<S>> for InTurn {
    ghost use Rattle.realm_inbox.specs.InTurn.{Keeps, fresh};

    ghost holds = { Keeps };

    ghost first = { fresh };
}

// Cuts the pass of the next seat from the reader's.
pub(crate) struct CutSeat;

impl<S: Shut> Split<InboxView<S>> for CutSeat {
    ghost use Rattle.realm_inbox.specs.InTurn.{after_cut, next_seat};

    ghost left = { after_cut };

    ghost right = { next_seat };
}

/// The chronicle of an inbox's realm, which who makes the inbox picks.
pub(crate) trait InboxNaming {
    ghost use Rattle.std.specs.Prelude.{Option};
    ghost use Rattle.atomic_table.specs.Seated.{TableId};

    ghost home: { Option TableId };
}

impl InboxNaming for Brand {
    ghost use Rattle.std.specs.Prelude.{None};

    ghost home = { None };
}

// Cuts the pass of the door from the reader's, before any seat's, and names the chronicle.
pub(crate) struct CutDoor<J> {
    of: PhantomData<J>,
}

impl<S: Shut, J: InboxNaming> Split<InboxView<S>> for CutDoor<J> {
    ghost use Rattle.realm_inbox.specs.InTurn.{after_door, new_door};

    ghost left = { after_door J.home };

    ghost right = { λ v. new_door J.home };
}

// A seat's pass is lent to the reader's or the door's, or the door's to the reader's, and comes back.
pub(crate) struct Beside;

impl<S: Shut> Join<InboxView<S>> for Beside {
    ghost use Rattle.realm_inbox.specs.InTurn.{beside, nobody};

    ghost both = { beside };

    ghost spent = { nobody };
}

impl<S: Shut> Split<InboxView<S>> for Beside {
    ghost use Rattle.realm_inbox.specs.InTurn.{without_lent, lent_in};

    ghost left = { without_lent };

    ghost right = { lent_in };
}

impl<S: Shut> Lesson<Post<S>, InboxView<S>> for Beside {
    ghost use Rattle.realm_inbox.specs.InTurn.{Agrees};

    ghost fact = { λ v items. Agrees v };
}

// A post at a seat.
pub(crate) struct Posts;

impl<S: Shut> Outcome<Post<S>, InboxView<S>> for Posts {
    ghost use Rattle.std.specs.Prelude.{◌≡◌};
    ghost use Rattle.realm_inbox.specs.InTurn.{after_post};

    ghost then = { λ v x w. w ≡ after_post v x };
}

impl<S: Shut> Lesson<Post<S>, InboxView<S>> for Posts {
    ghost use Rattle.std.specs.Prelude.{⊤};

    ghost fact = { λ v items. ⊤ };
}

// A stop, which the door posts.
pub(crate) struct Stops;

impl<S: Shut> Outcome<Post<S>, InboxView<S>> for Stops {
    ghost use Rattle.std.specs.Prelude.{◌≡◌};
    ghost use Rattle.realm_inbox.specs.InTurn.{after_stop};

    ghost then = { λ v x w. w ≡ after_stop v };
}

impl<S: Shut> Lesson<Post<S>, InboxView<S>> for Stops {
    ghost use Rattle.std.specs.Prelude.{⊤};

    ghost fact = { λ v items. ⊤ };
}

// A receive.
pub(crate) struct Receives;

impl<S: Shut> Outcome<Post<S>, InboxView<S>> for Receives {
    ghost use Rattle.realm_inbox.specs.InTurn.{Receipt};

    ghost then = { Receipt };
}

impl<S: Shut> Lesson<Post<S>, InboxView<S>> for Receives {
    ghost use Rattle.std.specs.Prelude.{⊤};

    ghost fact = { λ v items. ⊤ };
}

// A receive with a seat's pass lent to the reader's.
pub(crate) struct ReceivesBeside;

impl<S: Shut> Outcome<Post<S>, InboxView<S>> for ReceivesBeside {
    ghost use Rattle.realm_inbox.specs.InTurn.{Receipt};

    ghost then = { Receipt };
}

impl<S: Shut> Lesson<Post<S>, InboxView<S>> for ReceivesBeside {
    ghost use Rattle.realm_inbox.specs.InTurn.{AgreesWith};

    ghost fact = { AgreesWith };
}
