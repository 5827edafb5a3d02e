//! The actor of a realm: one thread owns the realm, takes posts from the inbox, applies them, and adds what each gives
//! to the outboxes of the sessions.
//!
//! An [`Actor`] keeps a row for each session that is live or whose outbox it holds. [`Actor::handle`] applies one post,
//! [`Actor::run`] all that an [`Inbox`] gives. A session whose outbox is found full gets none of its later items, and
//! is cut with the entry's last item: the least first, also those that are found full by what the Cuts give.
//! [`Actor::last_cut`] names them. [`Actor::settle`] puts an outbox and its drain together again; what was taken,
//! followed by the rest, is what was added.
//!
//! Between two posts, what was added to each held outbox begins what the realm's history owes its connection, and is
//! all of it unless a step found the outbox full; and nobody was cut for nothing ([`Actor::shows`]).
//!
//! Nothing is promised of time, nor that a writer is woken or a transport is shut.
#![tactic(auto)]

mod actor;
mod cuts;
mod delivery;
mod entering;
mod entries;
mod handle;
mod id_source;
mod last_cut;
pub mod laws;
mod load;
mod outcome;
mod row;
mod row_search;
mod run;
mod seat_guesses;
mod settle;
mod state;
mod stop;
mod table;

pub use actor::Actor;
pub use id_source::IdSource;
pub use load::Load;
pub use outcome::Outcome;
pub use realm_inbox::opening::inbox;
pub use realm_inbox::{
    Act, Door, GhostList, Halt, InTurn, Inbox, InboxView, Joining, Letter, Post, Poster, Posting,
    RealmHistory, Seat, Shut, opening,
};
pub use run::{Nobody, Onlooker};
