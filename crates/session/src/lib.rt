//! The octets of a session: its messages read from octets and written as frames, and how it opens, from the handshake
//! to HELLO. Messages as types are `wamp_messages`', and the sessions that a realm has are `realm`'s.
//!
//! ```
//! // as in cases_session/src/opening.rt: from the handshake to HELLO
//! match open_session(alloc, source, sink, self.realms.as_slice()) {
//!     Ok(session) => session_in_words(alloc, session, self.behind.as_slice()),
//!     Err(fault) => fault_line(alloc, fault),
//! }
//! // as in cases_session/src/saying.rt: what a message's octets say
//! let words = answer(alloc, read_payload(alloc, serializer, octets))?;
//! // as in cases_session/src/writing.rt: the frame of an item, behind what `out` has
//! match write_item(alloc, serializer, limit.min(MOST), item, &mut out) {
//!     Ok(()) => compared(alloc, serializer, item, &out),
//!     Err(_) if out.as_slice() != BEFORE => line_of(alloc, "the buffer is not as before"),
//!     Err(fault) => Ok(format!(in alloc; "{fault}\n")?),
//! }
//! ```
//!
//! Contracts say what each message of a client means, which message each item that the broker owes is, which octets are
//! its frame, and how an opening goes, octet by octet, within the bound of messages that was picked. Which item answers
//! what, `realm` says.
#![tactic(auto)]

mod fault;
pub mod laws;
mod messages;
mod opening;
mod wire;

pub use fault::Fault;
pub use messages::from_client::{read_payload, read_said};
pub use messages::to_client::{item_message, uri};
pub use messages::tree_elements::{TreeElements, id_among};
pub use opening::first_message::{abort_reason, abort_uri, first};
pub use opening::hello::{Asked, First};
pub use opening::opened_session::Opened;
pub use opening::{open_session, open_session_noting, open_session_within};
pub use wamp_messages::{
    Args, CarriedArgs, Decoded, Item, Lists, Publication, Publish, PublishOptions, Reason, Request,
    Said, SaidKind, SubscribeOptions, Who,
};
pub use wire::item_frames::{write_item, write_payload};
pub use wire::large_frames::{FrameEnd, write_unless_large};
pub use wire::serializer::decode;
