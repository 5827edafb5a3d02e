//! A thread posts each PING once the one before was received, and then a stop and a Join.
ghost use Rattle.std.specs.Prelude.{◌≤◌};

use crate::acts::joining_of;
use crate::room::{Room, post};
use crate::threads::ping_of;
use crate::wire::Wire;
use case_text::{Work, start};
use realm_inbox::{Act, Door, Inbox, Poster};
use std::alloc::{AllocError, Global};
use std::io;
use std::sync::atomic::{AtomicU64, Ordering};
use std::sync::{Arc, Wait};
use std::thread::Threads;
use wamp_ids::{Conn, seat};

/// The next PING comes after so many pauses of different lengths: so one of them meets the moment in which the receiving end has looked and
/// is about to sleep.
const PAUSES: u64 = 128;

/// A poster, the door of its inbox, how many PINGs it is to post, and how many posts were received.
#[derive(Drop)]
pub struct Paced {
    poster: Poster<Wire>,
    door: Door<Wire>,
    count: u64,
    received: Arc<AtomicU64>,
    alloc: Global,
}

// Looks until more than so many were received.
fn await_received<R: Wait>(rt: &R, received: &AtomicU64, number: u64) {
    for _ in rt.forever() {
        if received.load(Ordering::SeqCst) > number {
            return;
        }
    }
    unreachable!()
}

// Takes as long as so many looks.
fn pause(received: &AtomicU64, looks: u64) {
    for _ in 0..looks {
        let _ = received.load(Ordering::SeqCst);
    }
}

impl<R: Wait + Copy> Work<R, bool> for Paced {
    /// Posts them, numbered from 0, and what ends a case.
    fn run(self, rt: R) -> bool {
        let Paced {
            mut poster,
            mut door,
            count,
            received,
            alloc,
        } = self;
        for number in 0..count {
            let Ok(ping) = ping_of(alloc, number) else {
                return false;
            };
            if post(&rt, &mut poster, ping, 0).is_err() {
                break;
            }
            await_received(&rt, &received, number);
            pause(&received, number % PAUSES);
        }
        let _ = door.stop(&rt);
        await_received(&rt, &received, count);
        let has_joined = join_or_leave(&rt, alloc, &mut poster);
        await_received(&rt, &received, count.saturating_add(1));
        has_joined
    }
}

// Posts a Join. False where nobody receives it.
fn join<R: Wait>(rt: &R, alloc: Global, poster: &mut Poster<Wire>) -> io::Result<bool> {
    let joining = joining_of(alloc, poster.conn(), "-", 1)?;
    let posted = poster.post(rt, Act::Join(joining), 0);
    Ok(posted.is_ok())
}

// The same; where there is no memory for a Join it is posted that the client is gone.
fn join_or_leave<R: Wait>(rt: &R, alloc: Global, poster: &mut Poster<Wire>) -> bool {
    match join(rt, alloc, poster) {
        Ok(is_posted) => is_posted,
        Err(_) => {
            let _ = post(rt, poster, Act::Gone, 0);
            false
        }
    }
}

// What a connection is to post, and where it arrives. None where its seat isn't free.
fn work_of(
    mut room: Room,
    alloc: Global,
    conn: Conn,
    count: u64,
    received: Arc<AtomicU64>,
) -> Option<(Paced, Inbox<Wire>)> {
    let at = room.take_seat(seat(conn))?;
    let poster = at.into_poster(conn).ok()?;
    let Room { door, inbox, .. } = room;
    let work = Paced {
        poster,
        door: door?,
        count,
        received,
        alloc,
    };
    Some((work, inbox?))
}

// Receives until each sender is gone, and tells how many posts came so far.
fn receive_all<R: Wait>(rt: &R, inbox: &mut Inbox<Wire>, received: &AtomicU64) {
    for _ in rt.forever() {
        if inbox.receive(rt).is_none() {
            return;
        }
        received.fetch_add(1, Ordering::SeqCst);
    }
    unreachable!()
}

/// Posts so many PINGs through an inbox of this capacity, each once the one before was received, and then a stop and a Join. How many
/// posts came; none where the connection's seat isn't free.
pub fn pass_paced<R: Threads + Wait + Copy + Send + 'static>(
    rt: R,
    alloc: Global,
    cap: usize,
    conn: Conn,
    count: u64,
) -> Result<Option<u64>, AllocError>
    requires { 1 ≤ cap }
{
    let received = Arc::new(alloc, AtomicU64::new(0))?;
    let room = Room::new(alloc, cap)?;
    let told = Arc::try_clone(&received)?;
    let Some((work, mut inbox)) = work_of(room, alloc, conn, count, told) else {
        return Ok(None);
    };
    let poster = start(rt, work)?;
    receive_all(&rt, &mut inbox, &received);
    if !poster.join(&rt) {
        return Err(AllocError);
    }
    Ok(Some(received.load(Ordering::SeqCst)))
}
