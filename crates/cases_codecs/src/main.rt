//! Cases of trees (`message_tree`), of their serializations (`json_codec`, `msgpack_codec`) and of frames
//! (`rawsocket`), as lines of standard input; what each is answered by is printed. In a text or in octets `\7f` is an
//! octet.
//!
//! - `# TEXT` begins a case, and is printed as it stands.
//! - Messages:
//!   - `json TEXT`, `msgpack OCTETS`: reads a message, and prints its depth and a copy of its tree,
//!     and then the message in JSON and in MessagePack; where it is no message, the fault;
//!   - `nested N WORD OPEN LAST CLOSE`: does so for N times OPEN, then LAST, then N times CLOSE;
//!     `-` is nothing;
//!   - `pass ROOM OCTETS`: passes over the value at the front of octets in MessagePack, with so much room to
//!     nest in, and prints whether it is carried, whether it has its shortest spelling, and the octets
//!     after it;
//!   - `token OCTETS`: the token at the front of octets in MessagePack, and the octets after it;
//!   - `number N`, `letters TEXT`, `appended JSON`: values written behind others;
//!   - `beyond`: whether trees that nothing serializes are carried, and what is written of them;
//!   - `great KIND N`: a tree of so many letters, octets, items or keys, as MessagePack begins it.
//! - Trees:
//!   - `dict KEY=NUMBER ..`: the entries of a dictionary, set in this order;
//!   - `get KEY JSON`: what each type finds under the key;
//!   - `copies JSON`: depth, whether it is carried, and whether each type copies it;
//!   - `deep N`: so many lists in one another, as a message;
//!   - `text TEXT`, `octets OCTETS`, `shared TEXT`: what holds them, and a copy or twin.
//! - Frames, described in `frames.rt`, headers, in `appending.rt`, and devices, in `devices.rt`.
//! - `threads`: that streams and devices may go to another thread.
//! - `faults`: each fault.
#![tactic(auto)]

mod appending;
mod beyond;
mod case;
mod describing;
mod devices;
mod dictionaries;
mod frames;
mod great;
mod handshakes;
mod holding;
mod in_place;
mod passing;
mod reading;
mod sending;

use case::Case;
use case_text::tell_all;
use std::io;

fn main(rt: HostRuntime) -> io::Result<()> {
    let alloc = rt.alloc();
    tell_all(rt, alloc, &mut Case::new(alloc))
}
