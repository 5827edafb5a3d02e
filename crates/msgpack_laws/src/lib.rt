#![tactic(auto)]

//! Laws of reading MessagePack (MessagePack specification, "Formats"): what the definitions mean by which contracts see
//! values in octets, said by the grammar alone.
//!
//! `msgpack_cursor` and what stands on it speak of what the decoder reads (`value_at`), which is a recursion like the
//! code's. By these laws it reads a value exactly where a front of the octets spells it: who believes the grammar
//! (`msgpack_codec/specs/Grammar.antt`) needn't believe the decoder.
pub mod decoder;
pub mod standing;
