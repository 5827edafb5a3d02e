//! Cases of ids, topics and patterns (`wamp_ids`), of who is eligible (`eligibility`), and of what options ask for
//! (`wamp_messages`), as lines of standard input; what each is answered by is printed. In a text `\7f` is an octet, and
//! `-` alone is the empty text.
//!
//! - `# TEXT` begins a case, and is printed as it stands.
//! - `id N`, `conn N`: the id, or the connection and its seat.
//! - `word N`: the id that is drawn by this word.
//! - `topic TEXT`: the topic, and whether it is reserved.
//! - `moved TEXT`: the same of a string that is moved.
//! - `pattern POLICY TEXT`: the pattern; the policies are `exact`, `prefix` and `wildcard`.
//! - `matches POLICY TEXT TOPIC`: whether the pattern matches the topic.
//! - `same POLICY TEXT POLICY TEXT`: whether two patterns are the same.
//! - `dot TEXT`: the place of its first dot.
//! - `publisher CONN ID AUTHID AUTHROLE`, `receiver CONN ID AUTHID AUTHROLE`: who they are, from
//!   here on.
//! - `admits JSON`: whether the lists of these options admit the receiver.
//! - `takes JSON`: the same of lists that are taken out of these options.
//! - `stands OCTETS`: the same, by a twin, of lists that are read where these options stand in MessagePack; in octets
//!   `\7f` is an octet; or that one has a wrong type.
//! - `nobody JSON`: whether one of the eligible lists of these options is empty, so that nobody is admitted.
//! - `beyond KEY`: the same for lists under this key, each with a number beyond 64 bits.
//! - `everyone`: the same for no lists.
//! - `threads`: that lists and who they name may be shared between threads.
//! - `faults`: each fault.
//! - `options publish OCTETS`, `options subscribe OCTETS`, `options publish-json JSON`, `options subscribe-json JSON`:
//!   what the options of such a request ask for, and whether they admit the receiver; `options none`: what both
//!   requests ask for without options.
#![tactic(auto)]

mod admitting;
mod asking;
mod case;
mod matching;
mod naming;

use case::Case;
use case_text::tell_all;
use std::io;

fn main(rt: HostRuntime) -> io::Result<()> {
    let alloc = rt.alloc();
    tell_all(rt, alloc, &mut Case::new())
}
