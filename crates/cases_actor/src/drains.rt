//! The drains of connections.
ghost use Rattle.std.specs.Prelude.{◌<◌, length, IfSome};

use case_items::item_text;
use case_text::line_of;
use outbox_queue::{Drain, Next};
use realm_inbox::RealmHistory;
use session::Item;
use std::alloc::Global;
use std::io;
use std::sync::Wait;
use wamp_ids::Conn;

/// Drains of connections, ascending.
#[derive(Drop)]
pub struct Drains {
    all: Vec<Drain<Item, RealmHistory>>,
}

// Adds what waits in a drain, a line for each item.
fn take_whole<R: Wait>(
    rt: &R,
    alloc: Global,
    drain: &mut Drain<Item, RealmHistory>,
    out: &mut String,
) -> io::Result<()> {
    let conn = drain.conn();
    for _ in 0..u64::MAX {
        match drain.next(rt) {
            Next::Empty => break,
            Next::Item(item) => {
                let text = item_text(alloc, &item)?;
                write!(out, "{conn} {text}\n")?;
            }
        }
    }
    Ok(())
}

impl Drains {
    pub fn new(alloc: Global) -> Drains {
        Drains {
            all: Vec::new(alloc),
        }
    }

    fn place_of(&self, conn: Conn) -> Option<usize>
        ensures { IfSome result (λ place. place < length self.now.all.items) }
    {
        let number = conn.value();
        self.all.iter().position(|drain| drain.conn() == number)
    }

    /// Takes a drain in, in place of an earlier one of its connection.
    pub fn put(&mut self, conn: Conn, drain: Drain<Item, RealmHistory>) -> io::Result<()> {
        self.forget(conn);
        let number = conn.value();
        let place = self.all.iter().position(|other| other.conn() > number);
        match place {
            None => self.all.push(drain)?,
            Some(place) => self.all.insert(place, drain)?,
        }
        Ok(())
    }

    /// The connection's drain, which is no longer here.
    pub fn take(&mut self, conn: Conn) -> Option<Drain<Item, RealmHistory>> {
        let place = self.place_of(conn)?;
        Some(self.all.remove(place))
    }

    /// Drops the connection's drain.
    pub fn forget(&mut self, conn: Conn) {
        drop(self.take(conn));
    }

    /// The connection's next item, as a line.
    pub fn next<R: Wait>(&mut self, rt: &R, alloc: Global, conn: Conn) -> io::Result<String> {
        let Some(place) = self.place_of(conn) else {
            return line_of(alloc, "no drain");
        };
        let drain = &mut self.all[place];
        match drain.next(rt) {
            Next::Empty => line_of(alloc, "empty"),
            Next::Item(item) => {
                let text = item_text(alloc, &item)?;
                line_of(alloc, text.as_str())
            }
        }
    }

    /// All that waits, ascending by connection, each item behind the connection's number.
    pub fn take_all<R: Wait>(&mut self, rt: &R, alloc: Global) -> io::Result<String> {
        let mut out = String::new(alloc);
        for drain in self.all.iter_mut() {
            take_whole(rt, alloc, drain, &mut out)?;
        }
        Ok(out)
    }
}
