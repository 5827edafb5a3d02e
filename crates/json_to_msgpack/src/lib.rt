#![tactic(auto)]

//! A JSON text as octets of MessagePack that spell the same message: no tree is built.
//!
//! `json_codec` says what a JSON text means, and `msgpack_codec` what octets spell. The contract says that the octets
//! spell the tree that the text is read as.
mod deep_keys;
mod fit;
mod leaves;
mod lexer;
mod literals;
mod refusal;
mod scan;
mod token;
mod transliteration;
mod unescape;
mod values;
mod writing;

pub use transliteration::{Transliteration, to_msgpack};
