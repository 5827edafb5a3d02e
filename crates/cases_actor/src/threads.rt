//! Connections that publish in threads of their own, over one inbox and a running actor.
ghost use Rattle.std.specs.Prelude.{◌≤◌};

use crate::expecting::Expecting;
use crate::publishing::{Publisher, Taken, Writer};
use crate::room::Room;
use case_posts::act_of;
use case_text::{line_of, start};
use realm_actor::Outcome;
use std::alloc::{AllocError, Global};
use std::io;
use std::sync::Wait;
use std::thread::{JoinHandle, Threads};
use wamp_ids::Conn;

/// How many connections publish.
pub const CONNS: u64 = 4;

/// The outbox of each. None is ever found full, since each has room for all that the connection is given.
const CAP: usize = 65536;

/// The most publications of each connection. It is given an event for each one of all, and an answer for each of its own.
const MOST: u64 = 13000;

/// What each says once it has joined.
pub const SUBSCRIBE: &str = "[32,1,{},\"a.b\"]";

fn is_applied(outcome: Option<Outcome>) -> bool {
    match outcome {
        Some(Outcome::Applied) => true,
        _ => false,
    }
}

// Has a connection subscribe that has joined.
fn subscribe<R: Wait>(
    rt: &R,
    alloc: Global,
    room: &mut Room,
    conn: Conn,
) -> io::Result<Option<Outcome>> {
    match act_of(alloc, "said", SUBSCRIBE)? {
        Some(act) => room.act(rt, alloc, conn, act),
        None => Ok(None),
    }
}

// Joins the connection, and has it subscribe.
fn enter<R: Wait>(rt: &R, alloc: Global, room: &mut Room, conn: Conn) -> io::Result<bool> {
    if !is_applied(room.join(rt, alloc, conn, CAP, None)?) {
        return Ok(false);
    }
    Ok(is_applied(subscribe(rt, alloc, room, conn)?))
}

// The same of each connection. False where one has not joined.
fn enter_all<R: Wait>(rt: &R, alloc: Global, room: &mut Room) -> io::Result<bool> {
    for number in 1..=CONNS {
        if let Some(conn) = Conn::new(number) {
            if !enter(rt, alloc, room, conn)? {
                return Ok(false);
            }
        }
    }
    Ok(true)
}

// Waits for each thread that publishes. False where memory was refused to one.
fn join_publishers<R: Threads + Wait>(rt: &R, publishers: Vec<JoinHandle<bool>>) -> bool {
    let mut had = true;
    for publisher in publishers {
        had &= publisher.join(rt);
    }
    had
}

// Waits for each thread that takes, and gives what was taken.
fn join_writers<R: Threads + Wait>(
    rt: &R,
    alloc: Global,
    writers: Vec<JoinHandle<Taken>>,
) -> io::Result<Vec<Taken>> {
    let mut all = Vec::new(alloc);
    for writer in writers {
        all.push(writer.join(rt))?;
    }
    Ok(all)
}

// False where memory was refused to a thread that took.
fn had_memory(all: &[Taken]) -> bool {
    let mut had = true;
    for taken in all {
        had &= taken.had_memory;
    }
    had
}

/// The threads that are to be joined.
#[derive(Drop)]
struct Running {
    publishers: Vec<JoinHandle<bool>>,
    writers: Vec<JoinHandle<Taken>>,
}

impl Running {
    // Starts the thread that takes what a connection is given.
    fn start_writer<R: Threads + Wait + Copy + Send + 'static>(
        &mut self,
        rt: R,
        writer: Writer,
    ) -> io::Result<()> {
        let handle = start(rt, writer)?;
        self.writers.push(handle)?;
        Ok(())
    }

    // Starts the thread that publishes for a connection.
    fn start_publisher<R: Threads + Wait + Copy + Send + 'static>(
        &mut self,
        rt: R,
        publisher: Publisher,
    ) -> io::Result<()> {
        let handle = start(rt, publisher)?;
        self.publishers.push(handle)?;
        Ok(())
    }

    // Starts the thread that takes what a connection is given, if it has a drain.
    fn write<R: Threads + Wait + Copy + Send + 'static>(
        &mut self,
        rt: R,
        alloc: Global,
        room: &mut Room,
        conn: Conn,
    ) -> io::Result<()> {
        match room.drains.take(conn) {
            Some(drain) => self.start_writer(rt, Writer { conn, drain, alloc }),
            None => Ok(()),
        }
    }

    // Starts the thread that publishes for a connection, if it has a poster.
    fn publish<R: Threads + Wait + Copy + Send + 'static>(
        &mut self,
        rt: R,
        alloc: Global,
        room: &mut Room,
        conn: Conn,
        count: u64,
    ) -> io::Result<()> {
        let Some(poster) = room.seating.take(conn) else {
            return Ok(());
        };
        let publisher = Publisher {
            poster,
            count,
            alloc,
        };
        self.start_publisher(rt, publisher)
    }

    // Starts the two threads of each connection.
    fn start<R: Threads + Wait + Copy + Send + 'static>(
        &mut self,
        rt: R,
        alloc: Global,
        room: &mut Room,
        count: u64,
    ) -> io::Result<()> {
        for number in 1..=CONNS {
            if let Some(conn) = Conn::new(number) {
                self.write(rt, alloc, room, conn)?;
                self.publish(rt, alloc, room, conn, count)?;
            }
        }
        Ok(())
    }

    // Waits for each, and gives what was taken.
    fn join<R: Threads + Wait>(self, rt: &R, alloc: Global) -> io::Result<Vec<Taken>> {
        let Running {
            publishers,
            writers,
        } = self;
        let are_published = join_publishers(rt, publishers);
        let all = join_writers(rt, alloc, writers)?;
        if !(are_published & had_memory(&all)) {
            return Err(AllocError)?;
        }
        Ok(all)
    }
}

// Starts the threads of each connection, runs the actor until each poster is gone, and gives what was taken.
fn run<R: Threads + Wait + Copy + Send + 'static>(
    rt: R,
    alloc: Global,
    mut room: Room,
    count: u64,
) -> io::Result<Vec<Taken>> {
    let mut running = Running {
        publishers: Vec::new(alloc),
        writers: Vec::new(alloc),
    };
    running.start(rt, alloc, &mut room, count)?;
    room.run(&rt, alloc);
    running.join(&rt, alloc)
}

/// So many publications of each of the connections, each posted by a thread and written by another, and how many items are others
/// than a realm gives for the same entries.
pub fn publish_all<R: Threads + Wait + Copy + Send + 'static>(
    rt: R,
    alloc: Global,
    count: u64,
) -> io::Result<String> {
    if count > MOST {
        return line_of(alloc, "too many");
    }
    let mut room = Room::new(alloc, Vec::new(alloc))?;
    if !enter_all(&rt, alloc, &mut room)? {
        return line_of(alloc, "not joined");
    }
    let mut all = run(rt, alloc, room, count)?;
    let differences = Expecting::new(alloc)?.differences(alloc, &mut all, count)?;
    let publications = count.wrapping_mul(CONNS);
    Ok(format!(in alloc; "{publications} publications, {differences} differences\n")?)
}
