#![tactic(auto)]

//! Values of MessagePack (MessagePack specification, "Formats") where they stand in octets: a message, the elements of
//! a list one after another, the value of a dictionary's key. Nothing is copied, and no memory is taken.
//!
//! It reads each spelling that `msgpack_codec` reads. Contracts see a value as the data that `msgpack_codec::decode`
//! makes of the octets.
mod dictionary;
mod elements;
mod entries;
mod front;
mod seen;
mod unread;
mod value;

pub use dictionary::Dictionary;
pub use elements::Elements;
pub use entries::DictionaryEntries;
pub use front::first_value;
pub use seen::{Beginning, Seen};
pub use unread::Unread;
pub use value::{Spelling, Value, message};
