//! A thread posts what is read from many octets, and another keeps what it receives of it.
use crate::room::Room;
use crate::tally::{Received, Tally};
use crate::threads::{receive_up_to, work_of};
use crate::wire::Wire;
use case_text::{line_of, start};
use realm_inbox::{Inbox, Post};
use std::alloc::{AllocError, Global};
use std::io;
use std::sync::Wait;
use std::thread::{JoinHandle, Threads};
use wamp_ids::Conn;

/// How many posts may wait: more than a case has.
const ROOM: usize = 64;

/// How often a post is looked for that isn't to come.
const LOOKS: u64 = 200_000;

/// What a thread is to post, and how much of it is kept.
#[derive(Clone, Copy, Drop)]
pub struct Laden {
    pub conn: Conn,
    pub count: u64,
    /// From so many octets each was read.
    pub octets: usize,
    pub kept: u64,
}

// A thread that posts, where it arrives, and what was received and isn't handled yet.
#[derive(Drop)]
struct Stay {
    thread: JoinHandle<bool>,
    inbox: Inbox<Wire>,
    kept: Vec<Post<Wire>>,
}

// Starts the thread, receives as much as is to be kept, and looks whether more comes. The door and all other seats are gone.
fn stay_for<R: Threads + Wait + Copy + Send + 'static>(
    rt: R,
    alloc: Global,
    laden: Laden,
) -> Result<Option<Stay>, AllocError> {
    let mut room = Room::new(alloc, ROOM)?;
    let work = work_of(&mut room, alloc, laden.conn, laden.count, laden.octets);
    let Room { inbox, .. } = room;
    let (Some(work), Some(inbox)) = (work, inbox) else {
        return Ok(None);
    };
    let mut stay = Stay {
        inbox,
        kept: Vec::with_capacity(alloc, ROOM)?,
        thread: start(rt, work)?,
    };
    stay.keep(&rt, laden.kept)?;
    Ok(Some(stay))
}

impl Stay {
    // Receives so many posts, and what is found behind them, and keeps it all.
    fn keep<R: Wait>(&mut self, rt: &R, most: u64) -> Result<(), AllocError> {
        for _ in 0..most {
            if let Some(post) = self.inbox.receive(rt) {
                self.kept.push(post)?;
            }
        }
        for _ in 0..LOOKS {
            if let Some(post) = self.inbox.try_receive(rt) {
                self.kept.push(post)?;
            }
        }
        Ok(())
    }
}

/// Receives so many posts and keeps them, looks whether one more comes, and then handles those and all others.
pub fn pass_laden<R: Threads + Wait + Copy + Send + 'static>(
    rt: R,
    alloc: Global,
    laden: Laden,
) -> io::Result<String> {
    let Some(stay) = stay_for(rt, alloc, laden)? else {
        return line_of(alloc, "its seat isn't free");
    };
    let Stay {
        thread,
        mut inbox,
        kept,
    } = stay;
    let count = kept.len();
    let mut received = Received {
        first: Tally::new(laden.conn),
        second: Tally::new(laden.conn),
        others: 0,
    };
    for post in kept {
        received.sees(&post);
    }
    receive_up_to(&rt, &mut inbox, u64::MAX, &mut received);
    if !thread.join(&rt) {
        Err(AllocError)?;
    }
    let told = received.first.told(alloc)?;
    Ok(format!(in alloc; "{count} kept, and then none; {told}")?)
}

/// The same, but that the receiving end goes in place of that, while what it received is kept.
pub fn strand<R: Threads + Wait + Copy + Send + 'static>(
    rt: R,
    alloc: Global,
    laden: Laden,
) -> io::Result<String> {
    let Some(stay) = stay_for(rt, alloc, laden)? else {
        return line_of(alloc, "its seat isn't free");
    };
    let Stay {
        thread,
        inbox,
        kept,
    } = stay;
    drop(inbox);
    if !thread.join(&rt) {
        Err(AllocError)?;
    }
    let count = kept.len();
    Ok(format!(in alloc; "{count} kept, and then none; the thread ended\n")?)
}
