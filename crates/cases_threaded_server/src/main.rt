//! Cases of `threaded_server`, as lines of standard input; what each gives is printed.
//!
//! - `# TEXT` begins a case, and is printed as it stands. Its broker has the realms `r.one` and `r.two`, and counts
//!   ids. `outbox N`: so many items may wait for a session's writer, in place of 256. `within N`: messages of clients
//!   may have so many octets, in place of 2^20. `grant AUTHID AUTHROLE`: one more grant.
//! - What is accepted, in order: `client TEXT`, a stream whose client sends these octets, where `\7f` is an octet;
//!   `standing TEXT`, one whose sink stands still when it is first written an EVENT, until it is freed or the broker
//!   shuts the stream; `late TEXT`, one whose source stands still with what it has read behind the handshake, until it
//!   is freed or the broker shuts the stream; `holding K TEXT`, one of which the realm's actor lets go, at its end,
//!   only once the source of the late client K, which it frees, has been read again: so behind the post of what that
//!   one gave; `clients N`, so many that send nothing; `guests N TEXT`, so many that send these octets, each of which
//!   comes once the stream of the one before it has ended; `fails N`, so many failures in a row. After the last one the
//!   broker is told to stop.
//! - What is done before accepting goes on, to the client of this number, from 1: `hears K N`, it waits until it got so
//!   many octets; `ends K`, until its stream has ended; `says K TEXT`, it sends these octets; `stands K`, its sink is
//!   waited for to stand still; `frees K`, its sink or its source goes on; `floods K N OCTETS LEAST`, it sends N PINGs
//!   of so many octets each, and reads nothing, until its stream takes no more, but takes so many at least; `leaves K`,
//!   it closes its stream.
//! - `serve` serves all that over pairs of connected sockets, `serve tcp` over TCP, where no sink stands still. It
//!   tells how serving ended and what each client got, if it got anything; after `last N` only how many got the same
//!   last N octets as the first one, and what each other one got. Where a `may K TEXT` has what the client K got, only
//!   that is told of it. After `tally` it tells also how many sessions have ended, and how many of their writers
//!   stopped: all that these were owed was written; and how many other streams weren't served, for which reason. After
//!   `early` it tells whether most streams had come back when accepting was asked last.
//!   `serve N` does so many times what `serve` does, and tells once what was told each time. `serve log` serves with a
//!   log, and tells its lines, sorted and without counts and moments, in place of what clients got.
//! - Of the seats of connections, apart from serving: `take` takes one, `back CONN` gives one back, and `fill` takes
//!   all that are free.
#![tactic(auto)]

mod case;
mod client;
mod loopback;
mod script;
mod seating;
mod steps;
mod stream;
mod tally;
mod told;

use case::Case;
use case_text::number_of;
use std::io;

fn main(rt: HostRuntime) -> io::Result<()> {
    let alloc = rt.alloc();
    let mut case = Case::new(alloc);
    for line in rt.lines(alloc) {
        let line = line?;
        let told = match line.as_str() {
            "serve" => case.serve(rt, alloc)?,
            "serve tcp" => case.serve_tcp(rt, alloc)?,
            "serve log" => case.serve_logged(rt, alloc)?,
            line => match line.strip_prefix("serve ") {
                Some(times) => case.serve_often(rt, alloc, number_of(times))?,
                None => case.take(alloc, line)?,
            },
        };
        print!(rt; "{told}")?;
    }
    Ok(())
}
