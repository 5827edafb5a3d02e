//! Cases of `connection`, as lines of standard input; what each gives is printed.
//!
//! - `# TEXT` begins a case, and is printed as it stands. Its client speaks JSON and takes 512 octets in one payload.
//! - `client SERIALIZER LIMIT`: another client, of `json` or `msgpack`.
//! - What a connection is owed: `event SUBSCRIPTION PUBLICATION ARGUMENTS`, the arguments in JSON;
//!   `letters SUBSCRIPTION PUBLICATION N LETTER`, an EVENT with one text of so many letters;
//!   `published REQUEST PUBLICATION`, `pong TEXT`, `goodbye`.
//! - `write` writes all that, and tells what the device got and how it ended.
//! - `early TEXT`: octets that the opening of the session read behind HELLO; `octets TEXT`: those that come after.
//!   `\7f` is an octet.
//! - `publish N`, `subscribe N`: octets that come after, of a request whose topic or pattern has so many letters.
//! - `room N`: how many acts are received before they come back.
//! - `enter SERIALIZER`: a session of the realm is live that uses it; `leave`: the last that entered ends. `shared`
//!   tells what two of them use, or more. `crossing`: what may go to other threads.
//! - `forward` reads the octets, and what they publish is owed, as EVENTs of subscription 1 and publication 3.
//! - `read` reads the octets, and tells what was posted and how it ended.
//! - `weigh` reads the octets, and tells for how many octets the heaviest post counts while it waits.
//! - `pongs COUNT OCTETS FIRST WRITTEN SECOND`: a thread posts so many PINGs of so many octets. Once so many of them
//!   are posted, so many PONGs are written; and once so many PINGs are posted, their writer ends. What is told is how
//!   many were posted each time.
//! - `slowly`: devices give and take one octet at a time. `held`: the device written to holds octets back until it is
//!   told to pass them on, and only those passed on are told. `fed`: the same, and each item is owed only once all
//!   before it was passed on. `heard`: the device that is read gives one octet at a time, and each only once who
//!   receives was woken behind all that was posted.
//! - `fails N`: the call of this number fails, from 0.
//! - `reads`, `writes`: the same for each call that fails, the first one first, until none does.
#![tactic(auto)]

mod acts;
mod case;
mod client;
mod fed;
mod heard;
mod items;
mod owed;
mod pongs;
mod reader;
mod sessions;
mod writer;

use case::Case;
use case_text::is_refused;
use std::alloc::Global;
use std::io::{self, Input, Print};
use std::sync::Wait;
use std::thread::Threads;

fn main(rt: HostRuntime) -> io::Result<()> {
    let alloc = rt.alloc();
    tell_all(rt, alloc, &mut Case::new(alloc)?)
}

// Prints what each line of standard input is answered by.
fn tell_all<R: Input + Print + Threads + Wait + Copy + Send + 'static>(
    rt: R,
    alloc: Global,
    case: &mut Case,
) -> io::Result<()> {
    for line in rt.lines(alloc) {
        let told = answer(&rt, alloc, case, line?.as_str())?;
        print!(rt; "{told}")?;
    }
    Ok(())
}

/// What a line is answered by; one that memory was refused for is taken once more.
fn answer<R: Threads + Wait + Copy + Send + 'static>(
    rt: &R,
    alloc: Global,
    case: &mut Case,
    line: &str,
) -> io::Result<String> {
    let told = case.take(rt, alloc, line)?;
    if is_refused(told.as_str()) {
        return case.take(rt, alloc, line);
    }
    Ok(told)
}
