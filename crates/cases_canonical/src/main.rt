//! Cases of MessagePack in canonical form (`msgpack_canonical`), of JSON written from that (`msgpack_to_json`), of
//! values where they stand in octets (`msgpack_cursor`), and of JSON as MessagePack (`json_to_msgpack`), as lines of
//! standard input; what each is answered by is printed. In octets `\7f` is an octet.
//!
//! - `# TEXT` begins a case, and is printed as it stands.
//! - `canonical ROOM OCTETS`: writes the value at the front of octets, with so much room to nest in, behind the octets
//!   `ab`, and prints what stands there then (`ab` and a fault where the value isn't carried), and the octets after the
//!   value; or the fault.
//! - `same OCTETS`: whether the octets are written, or refused, as `msgpack_codec` reads and writes them.
//! - `json OCTETS`: writes the value at the front of octets, which are in canonical form, as JSON behind the octets
//!   `ab`, and prints what stands there then, and the octets after the value; or the fault.
//! - `shape N HEAD MEMBER END`: how many octets HEAD, so many times MEMBER, and END have in canonical form; `-` is
//!   nothing.
//! - `look OCTETS`: the message that the octets are, in words (`looking`), where a dictionary is told by what it has at
//!   eight keys, and is `{..}` where it has only others; or the refusal.
//! - `get KEY OCTETS`: what the dictionary that the octets are has at a key (`-` is the empty one): the value in words,
//!   how many levels it may nest, whether its octets are the shortest that spell it (or `other`), and the octets; or
//!   `none`, `no dictionary`, or the refusal.
//! - `entries OCTETS`: the entries of the dictionary that the octets are, in the order in which they stand, each with
//!   its value in words; or `no dictionary`, or the refusal.
//! - `unread OCTETS`: the elements of a message, read one by one as far as they come; before them whether they are
//!   whole, behind them whether that is the end (or there is more), and whether what is left is whole; or `no list`.
//! - `take KINDS OCTETS`: the next element by each letter: `w` a whole number, `t` a text, `v` any value; behind them
//!   the same of what is left; or `none` where such an element isn't there, and nothing behind that; or `no list`.
//! - `transliterate OCTETS`: the octets of MessagePack that a JSON text becomes, and whether they are the message that
//!   it is read as (`same`, or `differs`); or `no JSON`, `too deep` or `undecided`, and then `read` or the fault of the
//!   text.
//! - `long N HEAD MEMBER END`: the first eight octets of what the JSON text becomes that HEAD, so many times MEMBER,
//!   and END are, and how many octets there are.
#![tactic(auto)]

mod canonical;
mod case;
mod json;
mod looking;
mod reading;
mod transliterating;
mod walking;

use case::Case;
use case_text::tell_all;
use std::io;

fn main(rt: HostRuntime) -> io::Result<()> {
    let alloc = rt.alloc();
    tell_all(rt, alloc, &mut Case)
}
