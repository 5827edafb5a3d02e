//! The two ends of a connection (WAMP, "RawSocket Transport"): what its reader posts of the octets that come, what its
//! writer writes of the items that are owed, and the posters between.
//!
//! [`read_posts`] and [`write_items`] run in a thread each, and end where their stream, the other threads or want of
//! memory make them. Each says by its end what was posted, or written, of all that it read, or took. By an
//! [`EncodingPoster`] a reader posts what is encoded once for many receivers, by a [`PongPoster`] it reads on only
//! while its client takes its PONGs, and by a [`FarewellPoster`] it knows whether its client said ABORT, or HELLO once
//! more.
//!
//! Contracts compare what was posted with what the octets spell, and what was written with the frames of the items.
#![tactic(auto)]

mod encoding_poster;
mod farewell_poster;
mod frames;
mod in_use;
mod long_turns;
mod pongs;
mod reader;
mod told;
mod watch;
mod weight;
mod writer;

pub use encoding_poster::EncodingPoster;
pub use farewell_poster::FarewellPoster;
pub use in_use::{InUse, Using};
pub use long_turns::{LongTurn, LongTurns};
pub use pongs::{AskedPongs, OwedPongs, PongPoster, share_pongs};
pub use reader::{ReadEnd, read_counted, read_posts};
pub use told::Told;
pub use watch::Watch;
pub use writer::{WriteEnd, write_items, write_watched};
