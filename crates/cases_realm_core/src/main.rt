//! Cases of `realm_core`'s `World`, as lines of standard input; what each step did is printed.
//!
//! - `# TEXT` begins a case, and is printed as it stands.
//! - `grant AUTHID ROLE` adds a grant; `world INBOX OUTBOX` makes a world of these capacities.
//! - `post ENTRY`, `accept`, `lose [WORD]`, `push`, `take CONN`, `leave [WORD]` make a step.
//! - `> STEP` keeps a step; `run` makes the steps that were kept.
//! - `live CONN`, `rest`, `first`: whether a session is live, whether nothing waits, and whose item
//!   is the first that waits to be pushed.
//! - `deliver ENTRY` posts, accepts, pushes and takes.
//! - `churn N`: N sessions join, are found full, are cut and drained, one after another.
//!
//! An ENTRY is `join CONN WORD [AUTHID]`, `said CONN WORD MESSAGE`, `ping CONN TEXT`,
//! `spoilt CONN WORD`, `gone CONN WORD`, `cut CONN [WORD]` or `closed CONN WORD`; a MESSAGE is JSON.
#![tactic(auto)]

mod case;
mod churning;
mod entries;
mod telling;
mod words;

use case::Case;
use case_text::tell_all;
use std::io;

fn main(rt: HostRuntime) -> io::Result<()> {
    let alloc = rt.alloc();
    tell_all(rt, alloc, &mut Case::new(alloc))
}
