//! Handshakes:
//!
//! - `handshake OCTETS`: what these four are answered by, and the reply.
//! - `within N OCTETS`: the same of a router that takes payloads of up to N octets; or `no bound` where that is none.
//! - `no-seat`: the reply where no seat is free.
use case_text::{line_of, number_of, octets_of, spelled};
use rawsocket::{Handshake, MessageBound, Serializer, answer, no_seat_reply};
use std::alloc::Global;
use std::io;

/// What four octets are answered by, and the reply.
pub fn handshake(alloc: Global, octets: &[u8]) -> io::Result<String> {
    match octets {
        [first, second, third, fourth] => told(alloc, answer([*first, *second, *third, *fourth])),
        _ => line_of(alloc, "not four octets"),
    }
}

fn told(alloc: Global, handshake: Handshake) -> io::Result<String> {
    told_with(alloc, handshake, handshake.reply())
}

/// What the four octets of the words `N OCTETS` are answered by, where payloads may have N octets, and the reply.
pub fn handshake_within(alloc: Global, words: &str) -> io::Result<String> {
    let Some((_, octets)) = words.split_once(' ') else {
        return line_of(alloc, "no octets");
    };
    let Some(bound) = bound_of(number_of(words)) else {
        return line_of(alloc, "no bound");
    };
    let octets = octets_of(alloc, octets)?;
    match octets.as_slice() {
        [first, second, third, fourth] => {
            let handshake = answer([*first, *second, *third, *fourth]);
            let reply = handshake.reply_within(bound);
            told_with(alloc, handshake, reply)
        }
        _ => line_of(alloc, "not four octets"),
    }
}

/// The bound of so many octets.
pub fn bound_of(octets: u64) -> Option<MessageBound> {
    match u32::try_from(octets) {
        Ok(octets) => MessageBound::of_octets(octets),
        Err(_) => None,
    }
}

fn told_with(alloc: Global, handshake: Handshake, reply: Option<[u8; 4]>) -> io::Result<String> {
    let Some(reply) = reply else {
        return line_of(alloc, "dropped");
    };
    let reply = spelled(alloc, reply.as_slice())?;
    match handshake {
        Handshake::Accept { serializer, limit } => {
            let name = name_of(serializer);
            Ok(format!(in alloc; "{name} {limit}, {reply}\n")?)
        }
        Handshake::Refuse(fault) => Ok(format!(in alloc; "{fault}, {reply}\n")?),
        Handshake::Dropped => Ok(format!(in alloc; "dropped, {reply}\n")?),
    }
}

fn name_of(serializer: Serializer) -> &'static str {
    match serializer {
        Serializer::Json => "json",
        Serializer::MsgPack => "msgpack",
    }
}

/// The reply where no seat is free.
pub fn no_seat(alloc: Global) -> io::Result<String> {
    let reply = spelled(alloc, no_seat_reply().as_slice())?;
    line_of(alloc, reply.as_str())
}
