#![tactic(auto)]

//! RawSocket (WAMP specification, "RawSocket Transport"): the handshake, the frames of a stream that comes in any
//! pieces, and the devices that octets come from and go to.
//!
//! A frame's length has 24 bits here: payloads of exactly 2^24 octets, and any use of the upper five bits of a frame's
//! first octet, are left out.
//!
//! ```
//! // as in cases_codecs/src/handshakes.rt: a client's first four octets
//! [first, second, third, fourth] => told(alloc, answer([*first, *second, *third, *fourth])),
//! // as in cases_codecs/src/frames.rt: a frame behind what was written
//! match write_frame(alloc, kind, payload, &mut self.out) {
//!     Ok(()) => Ok(String::new(alloc)),
//!     Err(fault) => Ok(format!(in alloc; "{fault}\n")?),
//! }
//! // A piece of a stream. Where memory was refused nothing has changed, so it may be fed again.
//! match deframer.feed(alloc, piece) {
//!     Err(Fault::NoMemory) => deframer.feed(alloc, piece),
//!     fed => fed,
//! }
//! // What a piece completes:
//! Ok(fed) => {
//!     frames(text, &fed.frames)?;
//!     tell_fault(text, fed.fault)
//! }
//! // as in cases_codecs/src/sending.rt: all octets to a device
//! write_all(sink, ALL, &mut Turns::new())
//! ```
//!
//! How long a client's payloads may be, a router picks by a [`MessageBound`], which its reply to the handshake tells.
//!
//! Contracts say how each handshake is answered; that the frames of a stream, and the fault behind the last one, are
//! those that its octets spell, whatever pieces they came in; and of a device which octets it gave or took, in how many
//! calls, and how often it failed.
mod deframer;
pub mod devices;
mod fault;
mod frame;
mod handshake;
pub mod laws;
mod message_bound;

pub use deframer::{Deframer, Fed};
pub use devices::device::{Sink, Source};
pub use devices::memory::{MemorySink, MemorySource};
pub use devices::no_octets::NoOctets;
pub use devices::over_io::{ReadSource, WriteSink};
pub use devices::turns::{PIECE, Turns, read_piece, read_turn, send, write_all};
pub use fault::Fault;
pub use frame::{Frame, Kind, fill_header, header, write_frame};
pub use handshake::{Handshake, Serializer, answer, no_seat_reply};
pub use message_bound::MessageBound;
