//! The running broker: the threads that serve a broker's realms over any acceptor of streams.
//!
//! [`serve_on`] starts an actor thread for each realm, and for each stream that its [`Acceptor`] gives a reader thread,
//! which opens the session, starts the session's writer thread and waits for it. What each of these threads does is
//! `broker_threads`'; the seats that connections sit at are here. [`TcpAcceptor`] accepts over TCP. [`serve_within`]
//! does so within a bound of the messages of clients.
//!
//! Contracts say here by which of its acceptor's answers `serve_on` ends, and what became of each stream that the
//! acceptor gave: it came back, with its fate ([`StreamFate`]), and what was read of it, posted for it and written to
//! it is what that fate says; and only where no seat is free is a client told so. Each realm has one history, made of
//! what it received first, up to a stop; what it received of a seat in the end is what was posted there; each stream
//! that was over when the stop was posted was handled whole before it. Where ids are counted, each entry that draws a
//! word has a count of its own. Another's act cuts a session only where that is owed as many items as its outbox holds.
//! What a session's writer took begins what the history of its realm owes its connection; where the writer stopped, it
//! is all of it, and its realm hasn't cut it; where it is told that the session was lost, it is all of it, and its
//! realm has; where it is told that the outbox was full, it is as many items as that holds, or more. In each of these
//! cases its Join stands in that history, accepted or refused: none is lost untold. [`laws`] says that
//! no stream comes back in place of another. Each call is made only where its own contract allows it: a
//! connection's posts are made at its own seat, with its own outbox, which is open and new; each actor runs on a new
//! inbox. That the actors are told to stop when accepting ends, and not later, that an outbox comes over, and which
//! thread starts, ends or is waited for, is shown by runs alone.
//! Nothing is promised of time: a peer that takes nothing holds up its own writer, and the end of `serve_on`, but no
//! other session.
#![tactic(auto)]

mod acceptor;
mod account;
mod answer;
mod connection_table;
mod doors;
mod entry;
pub mod laws;
mod opening;
mod over;
mod overs;
mod poster_table;
mod realm_handle;
mod realm_run;
mod realms;
mod roster;
mod seat_fault;
mod seats;
mod serve;
mod starting;
mod tcp;

pub use acceptor::{Accepted, Acceptor, Parts};
pub use account::Account;
pub use answer::Answer;
pub use broker_config::{Config, Fault, Ids, copy_grants};
pub use broker_threads::{Closed, Log, LogEnd, SessionEnds, StreamFate, Telling};
pub use connection::{ReadEnd, WriteEnd};
pub use seat_fault::SeatFault;
pub use seats::Seats;
pub use serve::{serve_logged, serve_on, serve_within};
pub use tcp::{TcpAcceptor, TcpHandle};
