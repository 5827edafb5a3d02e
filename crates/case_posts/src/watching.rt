//! The transports of a case, and what is told of a post.
use crate::wire::Wire;
use std::alloc::Global;
use std::io;
use wamp_ids::Conn;

/// A handle to the transport that a Join brought, and whether it was told that the transport is shut.
#[derive(Drop)]
struct Watched {
    conn: Conn,
    wire: Wire,
    is_told: bool,
}

/// The transports that Joins brought, of which it is told once that they are shut.
#[derive(Drop)]
pub struct Watching {
    watched: Vec<Watched>,
}

impl Watching {
    /// No transport.
    pub fn new(alloc: Global) -> Watching {
        Watching {
            watched: Vec::new(alloc),
        }
    }

    /// From now on it is told when the connection's transport is shut.
    pub fn add(&mut self, conn: Conn, wire: Wire) -> io::Result<()> {
        self.watched.push(Watched {
            conn,
            wire,
            is_told: false,
        })?;
        Ok(())
    }

    /// What came of a post, as a line: the outcome, whom it cut, and whose transports were shut since this was last told.
    pub fn told(&mut self, alloc: Global, outcome: &str, cut: &[Conn]) -> io::Result<String> {
        let mut line = String::from_str(alloc, outcome)?;
        line.push_str(", cut [")?;
        for conn in cut {
            tell_conn(&mut line, *conn)?;
        }
        line.push_str("], shut [")?;
        self.tell_shut(&mut line)?;
        line.push_str("]\n")?;
        Ok(line)
    }

    // The transports that were shut since this was last told.
    fn tell_shut(&mut self, out: &mut String) -> io::Result<()> {
        for watched in self.watched.iter_mut() {
            if !watched.is_told && watched.wire.is_shut() {
                watched.is_told = true;
                tell_conn(out, watched.conn)?;
            }
        }
        Ok(())
    }
}

// Adds a connection's number, behind a space unless it is the first within the brackets.
fn tell_conn(out: &mut String, conn: Conn) -> io::Result<()> {
    if !out.as_str().ends_with('[') {
        out.push(' ')?;
    }
    let number = conn.value();
    write!(out, "{number}")?;
    Ok(())
}
