#![tactic(auto)]

//! Messages as JSON text (WAMP specification, "Serializers"; RFC 8259), read by `serde_json` and written as it writes.
//! A byte string is a JSON string of U+0000 and the base64 of its bytes (WAMP specification, "Binary conversion of JSON
//! Strings"; RFC 4648, section 4).
//!
//! Contracts say which octets are written for each message; that what is read is what `serde_json` reads of the octets,
//! a marked string being the bytes that it stands for; and that what is written reads back, where no text begins with
//! U+0000.
mod decoder;
mod encoder;
mod fault;
mod quoting;

pub use decoder::decode;
pub use encoder::{encode, encode_into, encode_number_into, encode_text_into};
pub use fault::Fault;
