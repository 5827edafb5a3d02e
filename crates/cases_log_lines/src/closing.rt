//! Connections that are closed.
use crate::case::{conn_of, in_text, word_of};
use case_text::{number_of, part};
use log_lines::{CloseReason, ConnectionEnd, Traffic, closed};
use session::Fault;
use std::alloc::Global;
use std::io;

/// The reasons that have neither a number nor a fault.
const REASONS: [CloseReason; 11] = [
    CloseReason::Goodbye,
    CloseReason::Abort,
    CloseReason::Ended,
    CloseReason::NotAdmitted,
    CloseReason::Unspelt,
    CloseReason::ReadFailed,
    CloseReason::WriteFailed,
    CloseReason::TooManyTurns,
    CloseReason::NoMemory,
    CloseReason::NoThread,
    CloseReason::Stop,
];

/// All faults of sessions and openings.
const FAULTS: [Fault; 15] = [
    Fault::NoMemory,
    Fault::TooDeep,
    Fault::Malformed,
    Fault::NotRawSocket,
    Fault::SerializerUnsupported,
    Fault::ReservedBits,
    Fault::FrameTooLong,
    Fault::FrameType,
    Fault::Shape,
    Fault::ReadFault,
    Fault::WriteFault,
    Fault::TooLongForClient,
    Fault::Ended,
    Fault::NoSuchRealm,
    Fault::TooManyTurns,
];

// A connection 7 that is closed for this reason, one of two, with nothing said or sent.
fn told(alloc: Global, reason: CloseReason) -> io::Result<String> {
    let closing = ConnectionEnd {
        reason,
        realm: None,
        authid: None,
        traffic: Traffic::NONE,
    };
    in_text(alloc, closed(alloc, conn_of(7)?, &closing, 1))
}

/// One whose realm, or the authid in it, wasn't granted: `realm [authid]`.
pub fn asked(alloc: Global, rest: &str) -> io::Result<String> {
    let (realm, authid) = part(rest);
    let realm = word_of(alloc, realm)?;
    let authid = word_of(alloc, authid)?;
    let is_named = !authid.as_str().is_empty();
    let closing = ConnectionEnd {
        reason: CloseReason::NotAdmitted,
        realm: Some(realm.as_str()),
        authid: if is_named {
            Some(authid.as_str())
        } else {
            None
        },
        traffic: Traffic::NONE,
    };
    in_text(alloc, closed(alloc, conn_of(7)?, &closing, 0))
}

/// One whose session said and was sent so much: messages, EVENTs, octets in, octets out, refused.
pub fn traffic(alloc: Global, rest: &str) -> io::Result<String> {
    let (_, events) = part(rest);
    let (_, octets_in) = part(events);
    let (_, octets_out) = part(octets_in);
    let (_, refused) = part(octets_out);
    let closing = ConnectionEnd {
        reason: CloseReason::Goodbye,
        realm: None,
        authid: None,
        traffic: Traffic {
            received: number_of(rest),
            events: number_of(events),
            octets_in: number_of(octets_in),
            octets_out: number_of(octets_out),
            refused: number_of(refused),
        },
    };
    in_text(alloc, closed(alloc, conn_of(7)?, &closing, 1))
}

/// So many items wait for it.
pub fn full(alloc: Global, items: u64) -> io::Result<String> {
    told(alloc, CloseReason::OutboxFull(items as usize))
}

/// An item has so many octets, over so many.
pub fn long(alloc: Global, rest: &str) -> io::Result<String> {
    let (_, limit) = part(rest);
    let octets = number_of(rest) as usize;
    let limit = (number_of(limit) % 16_777_216) as u32;
    told(alloc, CloseReason::TooLong { octets, limit })
}

/// Each reason that has neither a number nor a fault.
pub fn reasons(alloc: Global) -> io::Result<String> {
    let mut all = String::new(alloc);
    for reason in REASONS {
        all.push_str(told(alloc, reason)?.as_str())?;
    }
    Ok(all)
}

/// Each fault of a violation.
pub fn violations(alloc: Global) -> io::Result<String> {
    let mut all = String::new(alloc);
    for fault in FAULTS {
        all.push_str(told(alloc, CloseReason::Violation(fault))?.as_str())?;
    }
    Ok(all)
}

/// Each fault of an opening.
pub fn openings(alloc: Global) -> io::Result<String> {
    let mut all = String::new(alloc);
    for fault in FAULTS {
        all.push_str(told(alloc, CloseReason::NotOpened(fault))?.as_str())?;
    }
    Ok(all)
}
