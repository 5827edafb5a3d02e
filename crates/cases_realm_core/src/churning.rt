//! One session after another in one world.
use message_tree::Octets;
use realm_core::{Entry, Fault, Step, Stepped, World};
use std::alloc::Global;
use std::io;
use wamp_ids::Conn;

/// Makes a step; a session that is cut counts 1.
fn make(world: &mut World, alloc: Global, step: Step) -> Result<u64, Fault> {
    match world.step(alloc, step)? {
        Stepped::Left => Ok(1),
        _ => Ok(0),
    }
}

/// A session joins, is sent a PING that finds its queue full, is cut and drained.
fn turn(
    world: &mut World,
    alloc: Global,
    conn: Conn,
    word: u64,
    ping: Octets,
) -> Result<u64, Fault> {
    let authid = None;
    make(world, alloc, Step::Post(Entry::Join { conn, word, authid }))?;
    make(world, alloc, Step::Accept)?;
    make(world, alloc, Step::Push)?;
    sent(world, alloc, conn, ping)
}

fn sent(world: &mut World, alloc: Global, conn: Conn, payload: Octets) -> Result<u64, Fault> {
    make(world, alloc, Step::Post(Entry::Ping { conn, payload }))?;
    make(world, alloc, Step::Accept)?;
    make(world, alloc, Step::Push)?;
    let cut = make(world, alloc, Step::Leave(None))?;
    make(world, alloc, Step::Take(conn))?;
    Ok(cut)
}

/// So many sessions, and how many of them were cut.
pub fn churn(world: &mut World, alloc: Global, count: u64) -> io::Result<String> {
    let mut cut: u64 = 0;
    for word in 0..count {
        let ping = Octets::of(alloc, b"")?;
        if let Some(conn) = Conn::new(word.saturating_add(1)) {
            match turn(world, alloc, conn, word, ping) {
                Ok(left) => cut = cut.saturating_add(left),
                Err(fault) => return Ok(format!(in alloc; "{fault}\n")?),
            }
        }
    }
    Ok(format!(in alloc; "cut {cut}\n")?)
}
