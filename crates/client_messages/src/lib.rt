//! What a client that publishes and subscribes says to a broker, and what a broker says to it, as messages.
//!
//! `session` has the broker's half of the same messages. Contracts say which message says each thing, that a broker
//! reads it as just that, which options ask for which wishes, and what each message of a broker says; that a message of
//! this broker says what the broker meant is a law. Frames, streams and the order of messages are for the crates above.
#![tactic(auto)]

mod client_message;
mod dictionaries;
mod elements;
mod events;
mod fault;
mod heard;
mod hearing;
pub mod laws;
mod saying;
mod wishes;

pub use client_message::ClientMessage;
pub use events::read_event;
pub use fault::Fault;
pub use heard::{EventDetails, Heard};
pub use hearing::read_heard;
pub use saying::said_message;
pub use session::{Args, Request};
pub use wishes::{PublishWishes, SessionLists, SubscribeWishes};
