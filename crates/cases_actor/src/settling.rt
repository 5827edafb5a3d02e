//! The words of the cases in which outboxes are settled: an actor, and two connections.
pub mod desk;
pub mod pair;
pub mod passing;
pub mod side;
pub mod two_sides;

use crate::settling::pair::Pair;
use case_items::item_text;
use case_posts::{act_of, capacity, conn_and_rest};
use case_text::line_of;
use session::Item;
use std::alloc::Global;
use std::io;
use std::sync::Wait;
use wamp_ids::Conn;

/// The present pair of connections, if one was made.
#[derive(Drop)]
pub struct Settling {
    pair: Option<Pair>,
}

impl Settling {
    /// No actor yet.
    pub fn new() -> Settling {
        Settling { pair: None }
    }

    /// An actor, and two connections that posted nothing.
    pub fn begin(&mut self, alloc: Global) -> io::Result<String> {
        self.pair = Some(Pair::new(alloc)?);
        Ok(String::new(alloc))
    }

    /// Does what a word says, with what stands behind it.
    pub fn take<R: Wait>(
        &mut self,
        rt: &R,
        alloc: Global,
        words: (&str, &str),
    ) -> io::Result<String> {
        match &mut self.pair {
            None => line_of(alloc, "no actor"),
            Some(pair) => step(rt, alloc, pair, words),
        }
    }
}

// What a word does that needs an actor.
fn step<R: Wait>(
    rt: &R,
    alloc: Global,
    pair: &mut Pair,
    words: (&str, &str),
) -> io::Result<String> {
    let (word, text) = words;
    if word == "stop" {
        let outcome = pair.sides.stop(rt, alloc)?;
        return pair.told(alloc, outcome);
    }
    match conn_and_rest(text) {
        None => line_of(alloc, "no case has this word"),
        Some((conn, rest)) => of_conn(rt, alloc, pair, conn, (word, rest)),
    }
}

// What a word does that names a connection.
fn of_conn<R: Wait>(
    rt: &R,
    alloc: Global,
    pair: &mut Pair,
    conn: Conn,
    words: (&str, &str),
) -> io::Result<String> {
    match words.0 {
        "join" => join(rt, alloc, pair, conn, words.1),
        "take" => take(rt, alloc, pair, conn),
        "settle" => settle(rt, alloc, pair, conn),
        "holds" => line_of(
            alloc,
            if pair.sides.holds(conn) {
                "held"
            } else {
                "not held"
            },
        ),
        _ => act(rt, alloc, pair, conn, words),
    }
}

fn join<R: Wait>(
    rt: &R,
    alloc: Global,
    pair: &mut Pair,
    conn: Conn,
    text: &str,
) -> io::Result<String> {
    let Some(cap) = capacity(text) else {
        return line_of(alloc, "no outbox has that capacity");
    };
    let outcome = pair.join(rt, alloc, conn, cap)?;
    pair.told(alloc, outcome)
}

fn act<R: Wait>(
    rt: &R,
    alloc: Global,
    pair: &mut Pair,
    conn: Conn,
    words: (&str, &str),
) -> io::Result<String> {
    let Some(act) = act_of(alloc, words.0, words.1)? else {
        return line_of(alloc, "no case has this word");
    };
    let outcome = pair.sides.post(rt, alloc, conn, act)?;
    pair.told(alloc, outcome)
}

fn take<R: Wait>(rt: &R, alloc: Global, pair: &mut Pair, conn: Conn) -> io::Result<String> {
    let Some(item) = pair.sides.take(rt, conn) else {
        return line_of(alloc, "empty");
    };
    let text = item_text(alloc, &item)?;
    line_of(alloc, text.as_str())
}

fn settle<R: Wait>(rt: &R, alloc: Global, pair: &mut Pair, conn: Conn) -> io::Result<String> {
    match pair.sides.settle(rt, alloc, conn)? {
        None => line_of(alloc, "no drain"),
        Some(items) if items.is_empty() => line_of(alloc, "nothing is left"),
        Some(items) => lines_of(alloc, &items),
    }
}

// A line for each item.
fn lines_of(alloc: Global, items: &[Item]) -> io::Result<String> {
    let mut lines = String::new(alloc);
    for item in items {
        let text = item_text(alloc, item)?;
        lines.push_str(text.as_str())?;
        lines.push('\n')?;
    }
    Ok(lines)
}
