//! The session of a client over a stream (WAMP, "RawSocket Transport"): what it writes to a broker, and what it hears
//! from it.
//!
//! A [`Link`] says and hears messages one by one. A [`ClientSession`] is a link whose broker has welcomed it.
//!
//! ```
//! // as in cases_client/src/talking.rt
//! match Link::connect(alloc, source, sink, self.serializer) {
//!     Ok(mut link) => match say_all(alloc, &link, sink, &self.sayings)? {
//!         None if self.is_looking => look_on(alloc, &mut link, source, sink),
//!         None => hear_all(alloc, &mut link, source, sink),
//!         Some(end) => ended(alloc, end),
//!     },
//!     Err(fault) => ended(alloc, fault_line(alloc, fault)?),
//! }
//! // say_all, for each message:
//! match link.say(alloc, sink, said) {
//!     Ok(()) => {}
//!     Err(fault) => return Ok(Some(fault_line(alloc, fault)?)),
//! }
//! // hear_all, up to the fault that ends it:
//! match link.hear(alloc, source, sink) {
//!     Ok(heard) => lines.push_str(in_words(alloc, heard)?.as_str())?,
//!     Err(fault) => {
//!         let end = fault_line(alloc, fault)?;
//!         return Ok(Talk { lines, count, end });
//!     }
//! }
//! // look_on, which waits for nothing but octets:
//! match link.listen(alloc, source, sink) {
//!     Ok(Some(heard)) => {
//!         lines.push_str(in_words(alloc, heard)?.as_str())?;
//!         count = count.saturating_add(1);
//!     }
//!     Ok(None) => lines.push_str("nothing yet\n")?,
//!     Err(fault) => {
//!         let end = fault_line(alloc, fault)?;
//!         return Ok(Talk { lines, count, end });
//!     }
//! }
//! ```
//!
//! Contracts say which octets are written for what is said, and that what is heard is what the octets that were read
//! say, frame by frame and in their order, whatever pieces they came in. Each failure of a device is told, and nothing
//! is tried again after it.
#![tactic(auto)]

mod encoding;
mod fault;
mod handshake;
mod hearing;
mod inbox;
pub mod laws;
mod link;
mod sending;
mod welcomed;

pub use client_messages::{Args, ClientMessage, EventDetails, Heard, Request};
pub use fault::Fault;
pub use link::Link;
pub use rawsocket::Serializer;
pub use welcomed::{ClientSession, NoSession, Unheard};
