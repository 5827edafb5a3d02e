//! The inbox of a realm's actor: many connections post, one thread receives, and each post is the next of its seat.
//!
//! [`opening::inbox`] makes a [`Door`], the 256 [`Seat`]s and the [`Inbox`]. A [`Poster`] posts the acts of one
//! connection at its seat; a seat serves one connection after another. What was posted at each seat, and what was
//! received, are facts that contracts see and that take no bytes. Each post carries what had been posted at its seat
//! before it; and when it is received, that is exactly what had been received of the seat. So of each seat the inbox
//! gives what was posted there, whole and in order, and [`laws`] says so of every moment. Nobody else makes a [`Post`].
//! Who has an inbox and a poster of it in one hand learns by [`Inbox::compare`] that what was received of the seat
//! begins what was posted there; and by [`Inbox::receive_beside`], once that finds nothing more, that it is all of it.
//! A [`Door`] that is shown a poster posts stops from then on that come behind what was posted there: who receives one
//! has received that before.
//!
//! ```
//! // as in cases_inbox/src/room.rt
//! let (door, seats, inbox) = inbox::<Wire>(alloc, cap)?;
//! // as in cases_inbox/src/threads.rt: a connection takes its seat
//! let at = room.take_seat(seat(conn))?;
//! let poster = at.into_poster(conn).ok()?;
//! // as in cases_inbox/src/case.rt: its first act, which was read from no octets
//! let joining = joining_of(alloc, poster.conn(), authid, wire)?;
//! let posted = poster.post(rt, Act::Join(joining), 0);
//! // as in cases_inbox/src/threads.rt: the receiving thread, until nobody is left who could post
//! match inbox.receive(rt) {
//!     None => break,
//!     Some(post) => received.sees(&post),
//! }
//! ```
//!
//! An end that finds the inbox full or empty waits by means of this crate's own: posters at a bell, the receiving end
//! in a parker. Who receives many posts at once by [`Inbox::try_receive`] tells the posters afterwards that there is
//! room, by [`Inbox::wake`].
//!
//! Nothing is promised of time: neither that a call returns while the inbox is full or empty, nor which seat comes
//! first.
#![tactic(auto)]

mod act;
mod backlog;
mod bells;
mod beside;
mod compared;
mod door;
mod ends;
mod history;
mod joining;
pub mod laws;
mod letter;
pub mod opening;
mod post_kind;
mod posting;
mod room_bell;
mod rule;
mod schedule;
mod seat_line;
mod seat_lines;
mod seat_turns;
mod spent;
mod transport;

pub use act::Act;
pub use backlog::{Backlog, MOST_POSTS_WAITING, MOST_WAITING, Weight};
pub use door::Door;
pub use ends::{Inbox, Poster, Seat};
pub use ghost_state::GhostList;
pub use history::{RealmChronicle, RealmHistory, RealmMoment};
pub use joining::Joining;
pub use letter::{Halt, Letter, Post};
pub use posting::Posting;
pub use rule::{InTurn, InboxView};
pub use transport::Shut;
