//! Byte devices: where octets come from and go to, in turns that are counted.

pub(crate) mod device;
pub(crate) mod ghost_octets;
pub(crate) mod memory;
pub(crate) mod no_octets;
pub(crate) mod over_io;
pub(crate) mod turns;

pub use device::{Sink, Source};
pub use memory::{MemorySink, MemorySource};
pub use no_octets::NoOctets;
pub use over_io::{ReadSource, WriteSink};
pub use turns::{PIECE, Turns, read_piece, read_turn, send, write_all};
