//! The words of the table.
ghost use Rattle.std.specs.Prelude.{◌≤◌};

use crate::acts::{act_of, answered, joining_of, told};
use crate::laden::{Laden, pass_laden, strand};
use crate::paced::pass_paced;
use crate::room::{Room, post};
use crate::tally::Received;
use crate::threads::{Taking, pass_all};
use crate::wire::Wire;
use case_text::{crossing, line_of, may_be_sent, part};
use realm_inbox::{Act, Door, Inbox, Poster, Seat};
use std::alloc::Global;
use std::io;
use std::sync::Wait;
use std::thread::Threads;
use wamp_ids::Conn;

/// The ends of the present case's inbox, if one was made.
#[derive(Drop)]
pub struct Case {
    room: Option<Room>,
}

fn conn_of(text: &str) -> Option<Conn> {
    Conn::new(text.parse::<u64>().ok()?)
}

impl Case {
    /// No inbox yet.
    pub fn new() -> Case {
        Case { room: None }
    }

    /// Takes a line, and gives what it is answered by.
    pub fn take<R: Threads + Wait + Copy + Send + 'static>(
        &mut self,
        rt: R,
        alloc: Global,
        line: &str,
    ) -> io::Result<String> {
        let (word, text) = part(line);
        match word {
            "#" => {
                self.room = None;
                line_of(alloc, line)
            }
            "inbox" => self.begin(alloc, text),
            "threads" => pass_each(rt, alloc, text),
            "forsake" => forsake(rt, alloc, text),
            "linger" => again(rt, alloc, text, Taking::AllBut(1)),
            "turns" => again(rt, alloc, text, Taking::ByTurns),
            "laden" => laden(rt, alloc, text, false),
            "strand" => laden(rt, alloc, text, true),
            "paced" => paced(rt, alloc, text),
            "crossing" => ends_cross(alloc),
            _ => match &mut self.room {
                None => line_of(alloc, "no inbox"),
                Some(room) => step(&rt, alloc, room, word, text),
            },
        }
    }

    fn begin(&mut self, alloc: Global, text: &str) -> io::Result<String> {
        match text.parse::<usize>() {
            Ok(cap) if cap >= 1 => {
                self.room = Some(Room::new(alloc, cap)?);
                Ok(String::new(alloc))
            }
            _ => line_of(alloc, "no inbox has that capacity"),
        }
    }
}

// How many PINGs came that a thread posted one by one; the text names a capacity, a connection and how many it posts.
fn paced<R: Threads + Wait + Copy + Send + 'static>(
    rt: R,
    alloc: Global,
    text: &str,
) -> io::Result<String> {
    let (cap, rest) = part(text);
    let (conn, count) = part(rest);
    let came = match (cap.parse::<usize>(), conn_of(conn), count.parse::<u64>()) {
        (Ok(cap), Some(conn), Ok(count)) if cap >= 1 => pass_paced(rt, alloc, cap, conn, count)?,
        _ => None,
    };
    match came {
        Some(came) => Ok(format!(in alloc; "{came} came\n")?),
        None => line_of(alloc, "no such threads"),
    }
}

// Tells that the ends may go to other threads.
fn ends_cross(alloc: Global) -> io::Result<String> {
    may_be_sent::<Door<Wire>>();
    may_be_sent::<Seat<Wire>>();
    may_be_sent::<Poster<Wire>>();
    may_be_sent::<Inbox<Wire>>();
    crossing(alloc)
}

// What is received of two threads that post; the text names a capacity, two connections and how many each posts.
fn pass_some<R: Threads + Wait + Copy + Send + 'static>(
    rt: R,
    alloc: Global,
    text: &str,
    taking: Taking,
) -> io::Result<Option<Received>> {
    let (cap, rest) = part(text);
    let (first, rest) = part(rest);
    let (second, count) = part(rest);
    match (
        cap.parse::<usize>(),
        conn_of(first),
        conn_of(second),
        count.parse::<u64>(),
    ) {
        (Ok(cap), Some(first), Some(second), Ok(count)) if cap >= 1 => {
            Ok(pass_all(rt, alloc, cap, (first, second), count, taking)?)
        }
        _ => Ok(None),
    }
}

fn pass_each<R: Threads + Wait + Copy + Send + 'static>(
    rt: R,
    alloc: Global,
    text: &str,
) -> io::Result<String> {
    match pass_some(rt, alloc, text, Taking::UpTo(u64::MAX))? {
        Some(received) => received.told(alloc),
        None => line_of(alloc, "no capacity, two seats and count"),
    }
}

// The same, where the receiving end goes after so many posts.
fn forsake<R: Threads + Wait + Copy + Send + 'static>(
    rt: R,
    alloc: Global,
    text: &str,
) -> io::Result<String> {
    let (most, rest) = part(text);
    let Ok(most) = most.parse::<u64>() else {
        return line_of(alloc, "no number of posts");
    };
    match pass_some(rt, alloc, rest, Taking::UpTo(most))? {
        Some(received) => received.told_as_one(alloc),
        None => line_of(alloc, "no capacity, two seats and count"),
    }
}

// The same a number of times, where all is received, in one way or another. Where it is told the same each time it is told once.
fn again<R: Threads + Wait + Copy + Send + 'static>(
    rt: R,
    alloc: Global,
    text: &str,
    taking: Taking,
) -> io::Result<String> {
    let (times, rest) = part(text);
    let mut first = String::new(alloc);
    for time in 0..times.parse::<u64>().unwrap_or(0) {
        let Some(received) = pass_some(rt, alloc, rest, taking)? else {
            return line_of(alloc, "no capacity, two seats and count");
        };
        let told = received.told_as_one(alloc)?;
        if time == 0 {
            first = told;
        } else if told != first {
            return Ok(told);
        }
    }
    Ok(format!(in alloc; "{times} times: {first}")?)
}

// What comes of one thread that posts what was read from many octets; the text names a connection, how many it posts, from how many octets
// each, and how many are kept. Then they are handled, or the receiving end goes.
fn laden<R: Threads + Wait + Copy + Send + 'static>(
    rt: R,
    alloc: Global,
    text: &str,
    goes: bool,
) -> io::Result<String> {
    let (conn, rest) = part(text);
    let (count, rest) = part(rest);
    let (octets, kept) = part(rest);
    match (
        conn_of(conn),
        count.parse::<u64>(),
        octets.parse::<usize>(),
        kept.parse::<u64>(),
    ) {
        (Some(conn), Ok(count), Ok(octets), Ok(kept)) => {
            let laden = Laden {
                conn,
                count,
                octets,
                kept,
            };
            if goes {
                strand(rt, alloc, laden)
            } else {
                pass_laden(rt, alloc, laden)
            }
        }
        _ => line_of(alloc, "no seat and numbers"),
    }
}

// What a word does that needs an inbox.
fn step<R: Wait>(
    rt: &R,
    alloc: Global,
    room: &mut Room,
    word: &str,
    text: &str,
) -> io::Result<String> {
    match word {
        "receive" => told(alloc, room.receive(rt, true)),
        "try" => told(alloc, room.receive(rt, false)),
        "seats" => seats(alloc, room),
        "stop" => stop(rt, alloc, room),
        "took" => took(alloc, room, text),
        "close" => {
            room.inbox = None;
            Ok(String::new(alloc))
        }
        "desert" => {
            room.door = None;
            room.seats = Vec::new(alloc);
            Ok(String::new(alloc))
        }
        _ => of_conn(rt, alloc, room, word, text),
    }
}

// What a word does that names a connection.
fn of_conn<R: Wait>(
    rt: &R,
    alloc: Global,
    room: &mut Room,
    word: &str,
    text: &str,
) -> io::Result<String> {
    let (conn, rest) = part(text);
    let Some(conn) = conn_of(conn) else {
        return line_of(alloc, "no case has this word");
    };
    match word {
        "poster" => done(alloc, room.seat_poster(conn)?, "its seat isn't free"),
        "leave" => done(alloc, room.leave(conn)?, "no poster"),
        "join" => join(rt, alloc, room, conn, rest),
        "heavy" => {
            let (octets, text) = part(rest);
            let octets = octets.parse::<usize>().unwrap_or(0);
            act(rt, alloc, room, conn, ("ping", text), octets)
        }
        _ => act(rt, alloc, room, conn, (word, rest), 0),
    }
}

fn done(alloc: Global, is_done: bool, otherwise: &str) -> io::Result<String> {
    if is_done {
        Ok(String::new(alloc))
    } else {
        line_of(alloc, otherwise)
    }
}

// Which seats are free: how many, and the numbers of the first and the last.
fn seats(alloc: Global, room: &Room) -> io::Result<String> {
    let count = room.seats.len();
    match (room.seats.first(), room.seats.last()) {
        (Some(first), Some(last)) => {
            let first = first.number();
            let last = last.number();
            Ok(format!(in alloc; "{count} free, from {first} to {last}\n")?)
        }
        _ => line_of(alloc, "none free"),
    }
}

// What was received last took so many nanoseconds.
fn took(alloc: Global, room: &mut Room, text: &str) -> io::Result<String> {
    let nanos = text.parse::<u64>().unwrap_or(0);
    match &mut room.inbox {
        None => line_of(alloc, "no inbox"),
        Some(inbox) => {
            let is_dear = inbox.note_time(nanos);
            line_of(alloc, if is_dear { "dear" } else { "cheap" })
        }
    }
}

fn stop<R: Wait>(rt: &R, alloc: Global, room: &mut Room) -> io::Result<String> {
    match &mut room.door {
        None => line_of(alloc, "no door"),
        Some(door) => {
            let is_posted = door.stop(rt);
            done(alloc, is_posted, "nobody receives it")
        }
    }
}

fn join<R: Wait>(
    rt: &R,
    alloc: Global,
    room: &mut Room,
    conn: Conn,
    text: &str,
) -> io::Result<String> {
    let (authid, wire) = part(text);
    let Some(mut poster) = room.take_poster(conn) else {
        return line_of(alloc, "no poster");
    };
    let wire = wire.parse::<u64>().unwrap_or(0);
    let joining = joining_of(alloc, poster.conn(), authid, wire)?;
    let posted = poster.post(rt, Act::Join(joining), 0);
    room.posters.push(poster)?;
    answered(alloc, posted)
}

fn act<R: Wait>(
    rt: &R,
    alloc: Global,
    room: &mut Room,
    conn: Conn,
    words: (&str, &str),
    octets: usize,
) -> io::Result<String> {
    let Some(act) = act_of(alloc, words.0, words.1)? else {
        return line_of(alloc, "no case has this word");
    };
    let Some(mut poster) = room.take_poster(conn) else {
        return line_of(alloc, "no poster");
    };
    let posted = post(rt, &mut poster, act, octets);
    room.posters.push(poster)?;
    answered(alloc, posted)
}
