//! What a case tells of its clients.
use crate::client::{Client, Peer};
use crate::tally::Tally;
use case_text::spell;
use std::alloc::Global;
use std::io;

/// What each client got, by its number, if it got anything; where it is among what that client may get, only so. Each is heard to its end
/// first. Before that, whether it was held back.
pub fn tell<T: Peer>(
    told: &mut String,
    clients: &mut [Client<T>],
    allowed: &[(u64, Vec<u8>)],
) -> io::Result<()> {
    let mut number: u64 = 0;
    for client in clients.iter_mut() {
        number = number.wrapping_add(1);
        client.hear(u64::MAX)?;
        if client.is_held_back() {
            write!(told, "{number} was held back\n")?;
        }
        if may_get(allowed, number, client.got()) {
            write!(told, "{number} got what it may\n")?;
        } else {
            tell_one(told, number, client.got())?;
        }
    }
    Ok(())
}

fn may_get(allowed: &[(u64, Vec<u8>)], number: u64, got: &[u8]) -> bool {
    for (client, octets) in allowed {
        if *client == number && octets.as_slice() == got {
            return true;
        }
    }
    false
}

fn tell_one(told: &mut String, number: u64, got: &[u8]) -> io::Result<()> {
    if !got.is_empty() {
        write!(told, "{number} got ")?;
        spell(told, got)?;
        told.push('\n')?;
    }
    Ok(())
}

/// The last octets that the first client got, so many of them, and how many clients got these last; and of each other one what it got.
pub fn tell_last<T: Peer>(
    alloc: Global,
    told: &mut String,
    clients: &mut [Client<T>],
    count: usize,
) -> io::Result<()> {
    let mut number: u64 = 0;
    let mut alike: u64 = 0;
    let mut first = Vec::new(alloc);
    for client in clients.iter_mut() {
        number = number.wrapping_add(1);
        client.hear(u64::MAX)?;
        let last = last_of(client.got(), count);
        if number == 1 {
            first.extend_from_slice(last)?;
        }
        if last == first.as_slice() {
            alike = alike.wrapping_add(1);
        } else {
            tell_one(told, number, client.got())?;
        }
    }
    write!(told, "{alike} got at last ")?;
    spell(told, &first)?;
    told.push('\n')?;
    Ok(())
}

fn last_of(octets: &[u8], count: usize) -> &[u8] {
    let (_, last) = octets.split_at(octets.len().saturating_sub(count));
    last
}

/// Whether most of the streams had come back when accepting was asked last.
pub fn tell_back(told: &mut String, tally: Tally) -> io::Result<()> {
    let most = if tally.were_most_back() {
        "most"
    } else {
        "few"
    };
    Ok(write!(told, "{most} were back when accepting was asked last\n")?)
}

/// How many sessions have ended, and how many of their writers stopped; and why how many other streams weren't served.
pub fn tell_tally(told: &mut String, tally: Tally) -> io::Result<()> {
    let Tally {
        back: _,
        back_when_asked: _,
        served,
        stopped,
        not_opened,
        opened_alone,
        no_seat,
        no_memory,
    } = tally;
    write!(
        told,
        "sessions ended: {served}, writers stopped: {stopped}\n"
    )?;
    Ok(write!(
        told,
        "not opened: {not_opened}, opened alone: {opened_alone}, no seat: {no_seat}, no memory: {no_memory}\n"
    )?)
}
