//! The words of the table.
use crate::replaying::Replaying;
use crate::room::Room;
use crate::settling::Settling;
use crate::threads::publish_all;
use case_items::grant_of;
use case_posts::{act_of, capacity, conn_and_rest};
use case_text::{line_of, number_of, part};
use message_tree::Text;
use std::alloc::Global;
use std::sync::Wait;
use std::thread::Threads;
use std::{io, mem};
use wamp_ids::Conn;

/// The grants of the next actor, and the present one, if one was made.
#[derive(Drop)]
pub struct Case {
    grants: Vec<(String, String)>,
    room: Option<Room>,
    replaying: Replaying,
    settling: Settling,
}

impl Case {
    /// No actor yet.
    pub fn new(alloc: Global) -> Case {
        Case {
            grants: Vec::new(alloc),
            room: None,
            replaying: Replaying::new(alloc),
            settling: Settling::new(),
        }
    }

    /// Takes a line, and gives what it is answered by.
    pub fn take<R: Threads + Wait + Copy + Send + 'static>(
        &mut self,
        rt: R,
        alloc: Global,
        line: &str,
    ) -> io::Result<String> {
        let (word, text) = part(line);
        match word {
            "#" => {
                *self = Case::new(alloc);
                line_of(alloc, line)
            }
            "grant" => self.grant(alloc, text),
            "actor" => self.begin(alloc),
            "pair" => self.settling.begin(alloc),
            "line" => self.line(&rt, alloc, text),
            "threads" => publish_all(rt, alloc, number_of(text)),
            _ => match &mut self.room {
                None => self.settling.take(&rt, alloc, (word, text)),
                Some(room) => step(&rt, alloc, room, word, text),
            },
        }
    }

    fn grant(&mut self, alloc: Global, text: &str) -> io::Result<String> {
        self.grants.push(grant_of(alloc, text)?)?;
        Ok(String::new(alloc))
    }

    fn begin(&mut self, alloc: Global) -> io::Result<String> {
        let grants = mem::replace(&mut self.grants, Vec::new(alloc));
        self.room = Some(Room::new(alloc, grants)?);
        Ok(String::new(alloc))
    }

    fn line<R: Wait>(&mut self, rt: &R, alloc: Global, text: &str) -> io::Result<String> {
        match (&mut self.room, conn_and_rest(text)) {
            (Some(room), Some((conn, text))) => self.replaying.line(rt, alloc, room, conn, text),
            _ => line_of(alloc, "no actor, or no connection"),
        }
    }
}

// What a word does that needs an actor.
fn step<R: Wait>(
    rt: &R,
    alloc: Global,
    room: &mut Room,
    word: &str,
    text: &str,
) -> io::Result<String> {
    match word {
        "stop" => {
            let outcome = room.stop(rt, alloc)?;
            room.told(alloc, outcome)
        }
        "sweep" => {
            room.desk.sweep();
            Ok(String::new(alloc))
        }
        "persist" => {
            room.persist();
            Ok(String::new(alloc))
        }
        _ => match conn_and_rest(text) {
            None => line_of(alloc, "no case has this word"),
            Some((conn, rest)) => of_conn(rt, alloc, room, conn, (word, rest)),
        },
    }
}

// What a word does that names a connection.
fn of_conn<R: Wait>(
    rt: &R,
    alloc: Global,
    room: &mut Room,
    conn: Conn,
    words: (&str, &str),
) -> io::Result<String> {
    let (word, rest) = words;
    match word {
        "join" => join(rt, alloc, room, conn, rest),
        "take" => room.drains.next(rt, alloc, conn),
        "live" => told(alloc, room.desk.is_live(conn), "live", "not live"),
        "holds" => told(alloc, room.desk.holds(conn), "held", "not held"),
        "leave" => told(alloc, room.seating.leave(conn)?, "left", "no poster"),
        _ => act(rt, alloc, room, conn, words),
    }
}

fn told(alloc: Global, is_so: bool, so: &str, otherwise: &str) -> io::Result<String> {
    line_of(alloc, if is_so { so } else { otherwise })
}

// What a connection asks for to join: an authid, if one is given.
fn authid_of(alloc: Global, text: &str) -> io::Result<Option<Text>> {
    match text {
        "" => Ok(None),
        authid => Ok(Some(Text::of(alloc, authid)?)),
    }
}

fn join<R: Wait>(
    rt: &R,
    alloc: Global,
    room: &mut Room,
    conn: Conn,
    text: &str,
) -> io::Result<String> {
    let (cap, authid) = part(text);
    let Some(cap) = capacity(cap) else {
        return line_of(alloc, "no outbox has that capacity");
    };
    let authid = authid_of(alloc, authid)?;
    let outcome = room.join(rt, alloc, conn, cap, authid)?;
    room.told(alloc, outcome)
}

fn act<R: Wait>(
    rt: &R,
    alloc: Global,
    room: &mut Room,
    conn: Conn,
    words: (&str, &str),
) -> io::Result<String> {
    let Some(act) = act_of(alloc, words.0, words.1)? else {
        return line_of(alloc, "no case has this word");
    };
    let outcome = room.act(rt, alloc, conn, act)?;
    room.told(alloc, outcome)
}
