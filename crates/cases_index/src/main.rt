//! Cases of subscriptions (`subscription_index`) and of retained publications (`retained`), as lines of standard input;
//! what each is answered by is printed. In a text `\7f` is an octet, and `-` alone is the empty text.
//!
//! - `# TEXT` begins a case, with nothing held and nothing kept, and is printed as it stands.
//! - Subscriptions:
//!   - `hold CONN POLICY TEXT`: the number that the connection gets; the policies are `exact`,
//!     `prefix` and `wildcard`;
//!   - `release CONN NUMBER`: whether it was held;
//!   - `drop CONN`: ends all of the connection;
//!   - `matching TOPIC`: who holds a pattern that matches, each as CONN:NUMBER;
//!   - `receivers TOPIC`: the same, with `+topic` behind those whose events name the topic;
//!   - `pattern CONN NUMBER`: the pattern that is held under the number.
//! - Retained publications:
//!   - `keep NUMBER TOPIC`: keeps a publication of this number;
//!   - `room TOPIC`: whether there is room for one of this topic;
//!   - `kept POLICY TEXT`: those whose topics match, each as NUMBER TOPIC;
//!   - `count POLICY TEXT`: how many these are.
//! - `threads`: that an index and a store may be shared between threads.
//! - `faults`: each fault.
//!
//! The last case is drawn and answered by tests/draw_index.
#![tactic(auto)]

mod case;
mod index;
mod reading;
mod store;

use case::Case;
use case_text::tell_all;
use std::io;

fn main(rt: HostRuntime) -> io::Result<()> {
    let alloc = rt.alloc();
    tell_all(rt, alloc, &mut Case::new(alloc))
}
