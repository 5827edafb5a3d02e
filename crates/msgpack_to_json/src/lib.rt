#![tactic(auto)]

//! A value in octets of MessagePack as JSON text: no tree is built.
//!
//! `msgpack_codec` says what octets of MessagePack are, and `json_codec` what the JSON text of a value is. Contracts
//! say of each value that MessagePack writes that its JSON text is written.
mod fault;
mod json;
mod leaves;

pub use fault::Fault;
pub use json::write_json;
