#![tactic(auto)]

//! MessagePack in canonical form, from octets to octets: the octets that `msgpack_codec::encode` writes for the tree
//! that octets spell (the shortest spelling of each value, MessagePack specification, "Formats"; of a dictionary each
//! key once, ascending by its bytes, with the last value that it was given), with no tree between.
//!
//! Contracts say it in the words of `msgpack_codec`: which tree the octets spell, what is written for it, and which
//! octets are refused, for the same reasons as by `msgpack_codec::decode`.
mod beginnings;
mod canonical;
mod canonical_entries;
mod entries;
mod heads;
mod kinds;
mod leaves;
mod texts;
mod writing;

pub use canonical::{Canonicalized, canonicalize, canonicalize_value};
pub use texts::first_text;
