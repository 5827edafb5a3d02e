//! Two threads post, a third receives.
ghost use Rattle.std.specs.Prelude.{◌≡◌, ◌≤◌, false, IfOk};
ghost use Rattle.realm_inbox.specs.Joins.{is_join};

use crate::room::{Room, post_quietly};
use crate::tally::{Received, Tally};
use crate::wire::Wire;
use case_text::{Work, start};
use message_tree::Octets;
use realm_inbox::{Act, Inbox, Poster};
use std::alloc::{AllocError, Global};
use std::sync::Wait;
use std::thread::Threads;
use wamp_ids::{Conn, seat};

/// A poster, how many PINGs it is to post, and from how many octets each was read.
#[derive(Drop)]
pub struct Numbered {
    poster: Poster<Wire>,
    count: u64,
    octets: usize,
    alloc: Global,
}

/// The PING of this number.
pub fn ping_of(alloc: Global, number: u64) -> Result<Act<Wire>, AllocError>
    ensures { IfOk result (λ act. is_join act ≡ false) }
{
    let octets = Octets::of(alloc, number.to_be_bytes().as_slice())?;
    Ok(Act::Ping(octets))
}

impl<R: Wait + Copy> Work<R, bool> for Numbered {
    /// Posts them, numbered from 0, and wakes who receives them by none: so that is woken before each wait, or never.
    fn run(self, rt: R) -> bool {
        let Numbered {
            mut poster,
            count,
            octets,
            alloc,
        } = self;
        for number in 0..count {
            let Ok(ping) = ping_of(alloc, number) else {
                return false;
            };
            if post_quietly(&rt, &mut poster, ping, octets).is_err() {
                break;
            }
        }
        true
    }
}

/// How much of what two threads post is received before both have ended.
#[derive(Clone, Copy, Drop)]
pub enum Taking {
    /// Up to so many posts. The receiving end goes then.
    UpTo(u64),
    /// All but so many, which fit. The others are received once both have ended.
    AllBut(u64),
    /// All: the first is looked for, the next waited for, and so on in turn. Nobody is woken between the two.
    ByTurns,
}

/// What the two posters are to do, and where it arrives. The door and all other seats are gone.
#[derive(Drop)]
struct Both {
    first: Numbered,
    second: Numbered,
    inbox: Inbox<Wire>,
}

/// What a connection is to post. None where its seat isn't free.
pub fn work_of(
    room: &mut Room,
    alloc: Global,
    conn: Conn,
    count: u64,
    octets: usize,
) -> Option<Numbered> {
    let at = room.take_seat(seat(conn))?;
    let poster = at.into_poster(conn).ok()?;
    Some(Numbered {
        poster,
        count,
        octets,
        alloc,
    })
}

fn both_of(mut room: Room, alloc: Global, first: Conn, second: Conn, count: u64) -> Option<Both> {
    let first = work_of(&mut room, alloc, first, count, 0)?;
    let second = work_of(&mut room, alloc, second, count, 0)?;
    let Room { inbox, .. } = room;
    Some(Both {
        first,
        second,
        inbox: inbox?,
    })
}

/// Receives until each sender is gone, or so many posts came.
pub fn receive_up_to<R: Wait>(rt: &R, inbox: &mut Inbox<Wire>, most: u64, received: &mut Received) {
    for _ in 0..most {
        match inbox.receive(rt) {
            None => break,
            Some(post) => received.sees(&post),
        }
    }
}

// Looks until a post is found.
fn look<R: Wait>(rt: &R, inbox: &mut Inbox<Wire>, received: &mut Received) {
    for _ in rt.forever() {
        if let Some(post) = inbox.try_receive(rt) {
            received.sees(&post);
            return;
        }
    }
    unreachable!()
}

// Receives so many pairs of posts: one that is looked for, and one that is waited for.
fn receive_by_turns<R: Wait>(rt: &R, inbox: &mut Inbox<Wire>, pairs: u64, received: &mut Received) {
    for _ in 0..pairs {
        look(rt, inbox, received);
        receive_up_to(rt, inbox, 1, received);
    }
}

// Receives what is to be received before both threads have ended, each of which posts so many. The inbox, unless it is to go.
fn take<R: Wait>(
    rt: &R,
    mut inbox: Inbox<Wire>,
    taking: Taking,
    each: u64,
    received: &mut Received,
) -> Option<Inbox<Wire>> {
    match taking {
        Taking::UpTo(most) => {
            receive_up_to(rt, &mut inbox, most, received);
            return None;
        }
        Taking::AllBut(left) => {
            let most = each.saturating_mul(2).saturating_sub(left);
            receive_up_to(rt, &mut inbox, most, received);
        }
        Taking::ByTurns => receive_by_turns(rt, &mut inbox, each, received),
    }
    Some(inbox)
}

// Starts both threads and receives so much of what they post. False where memory was refused.
fn pass<R: Threads + Wait + Copy + Send + 'static>(
    rt: R,
    both: Both,
    taking: Taking,
    received: &mut Received,
) -> Result<bool, AllocError> {
    let Both {
        first,
        second,
        inbox,
    } = both;
    let each = first.count;
    let first = start(rt, first)?;
    let second = start(rt, second);
    let Ok(second) = second else {
        drop(inbox);
        first.join(&rt);
        return Err(AllocError);
    };
    let rest = take(&rt, inbox, taking, each, received);
    let had_memory = first.join(&rt);
    let had_memory = second.join(&rt) && had_memory;
    if let Some(mut inbox) = rest {
        receive_up_to(&rt, &mut inbox, u64::MAX, received);
    }
    Ok(had_memory)
}

/// Posts so many PINGs from each of two threads through an inbox of this capacity, of which a third receives as much as it is told. What
/// that one received; none where the two connections have the same seat.
pub fn pass_all<R: Threads + Wait + Copy + Send + 'static>(
    rt: R,
    alloc: Global,
    cap: usize,
    conns: (Conn, Conn),
    count: u64,
    taking: Taking,
) -> Result<Option<Received>, AllocError>
    requires { 1 ≤ cap }
{
    let (first, second) = conns;
    let room = Room::new(alloc, cap)?;
    let Some(both) = both_of(room, alloc, first, second, count) else {
        return Ok(None);
    };
    let mut received = Received {
        first: Tally::new(first),
        second: Tally::new(second),
        others: 0,
    };
    if !pass(rt, both, taking, &mut received)? {
        return Err(AllocError);
    }
    Ok(Some(received))
}
