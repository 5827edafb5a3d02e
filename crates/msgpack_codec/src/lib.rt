#![tactic(auto)]

//! Messages as MessagePack (the MessagePack specification, "Formats"; WAMP specification, "Serializers"), read by every
//! spelling of its table and written by the shortest.
//!
//! What no tree carries (a float, a value of an extension type, a str that isn't UTF-8, a map with a key that isn't a
//! str) is read past into `Uncarried`.
//!
//! [`pass`] and [`first_token`] read octets with no memory: the one passes over a value, the other takes a value with
//! nothing inside, or the head of a list or dictionary.
//!
//! Contracts say which octets spell a message, that reading accepts each spelling of it and nothing else, and that what
//! is written is the shortest.
mod carriage;
mod decoder;
mod encoder;
mod fault;
mod format;
mod keys;
pub mod laws;
mod passing;
mod short_leaves;
mod short_texts;
mod shortest;
mod tokens;
mod utf8;

pub use carriage::Carriage;
pub use decoder::decode;
pub use encoder::{encode, encode_into, encode_number_into, encode_text_into};
pub use fault::Fault;
pub use keys::key_order;
pub use passing::{Passed, Refusal, pass};
pub use short_leaves::short_leaf;
pub use short_texts::short_text;
pub use tokens::{Malformed, Token, first_token};
pub use utf8::is_ascii;
