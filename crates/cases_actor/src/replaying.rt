//! A line of a replay, as a post.
use crate::acts::act_of_line;
use crate::room::Room;
use case_items::{item_text, said_of};
use message_tree::Text;
use realm_actor::Outcome;
use session::{First, Item, Said, abort_reason, first};
use std::alloc::{AllocError, Global};
use std::sync::Wait;
use std::{io, slice};
use wamp_ids::{Conn, Topic};

/// The outbox of a session: no line gives so many items.
const CAP: usize = 2000;

/// The connections that lines named so far.
#[derive(Drop)]
pub struct Replaying {
    named: Vec<Conn>,
}

fn end(alloc: Global, conn: Conn) -> io::Result<String> {
    let number = conn.value();
    Ok(format!(in alloc; "{number} end\n")?)
}

// The first line of a connection is refused: it gets an ABORT, and has ended.
fn refused(alloc: Global, conn: Conn, fault: session::Fault) -> io::Result<String> {
    let Some(reason) = abort_reason(fault) else {
        return Err(AllocError)?;
    };
    let number = conn.value();
    let text = item_text(alloc, &Item::Abort(reason))?;
    Ok(format!(in alloc; "{number} {text}\n{number} end\n")?)
}

// What a first message asks for: a session with this authid, or nothing that is granted.
fn asked(alloc: Global, said: Said) -> io::Result<Result<Option<Text>, session::Fault>> {
    let Ok(name) = Topic::read(alloc, "r.one") else {
        return Err(AllocError)?;
    };
    match first(said, slice::from_ref(&name)) {
        Ok(First { authid, .. }) => Ok(Ok(authid.map(Text::from_string))),
        Err(fault) => Ok(Err(fault)),
    }
}

impl Replaying {
    pub fn new(alloc: Global) -> Replaying {
        Replaying {
            named: Vec::new(alloc),
        }
    }

    /// Does what a line of a connection says, and gives what a replay prints for it.
    pub fn line<R: Wait>(
        &mut self,
        rt: &R,
        alloc: Global,
        room: &mut Room,
        conn: Conn,
        text: &str,
    ) -> io::Result<String> {
        if !self.named.contains(&conn) {
            self.named.push(conn)?;
            return open(rt, alloc, room, conn, text);
        }
        if !room.desk.is_live(conn) {
            return Ok(String::new(alloc));
        }
        let act = act_of_line(alloc, text)?;
        let outcome = room.act(rt, alloc, conn, act)?;
        given(rt, alloc, room, conn, outcome)
    }
}

// The first line of a connection: it opens a session, or is refused.
fn open<R: Wait>(
    rt: &R,
    alloc: Global,
    room: &mut Room,
    conn: Conn,
    text: &str,
) -> io::Result<String> {
    if text == "gone" {
        return end(alloc, conn);
    }
    let Some(said) = said_of(alloc, text)? else {
        return refused(alloc, conn, session::Fault::Shape);
    };
    match asked(alloc, said)? {
        Err(fault) => refused(alloc, conn, fault),
        Ok(authid) => {
            let outcome = room.join(rt, alloc, conn, CAP, authid)?;
            given(rt, alloc, room, conn, outcome)
        }
    }
}

// Adds the end of the connection's session. Nothing of the connection stays.
fn close(alloc: Global, room: &mut Room, conn: Conn, lines: &mut String) -> io::Result<()> {
    room.drains.forget(conn);
    room.seating.leave(conn)?;
    room.desk.sweep();
    lines.push_str(end(alloc, conn)?.as_str())?;
    Ok(())
}

// What a post gave each session; and the end of the connection's own, if it has ended.
fn given<R: Wait>(
    rt: &R,
    alloc: Global,
    room: &mut Room,
    conn: Conn,
    outcome: Option<Outcome>,
) -> io::Result<String> {
    if outcome != Some(Outcome::Applied) || !room.desk.last_cut().is_empty() {
        return room.told(alloc, outcome);
    }
    let mut lines = room.drains.take_all(rt, alloc)?;
    if !room.desk.is_live(conn) {
        close(alloc, room, conn, &mut lines)?;
    }
    Ok(lines)
}
