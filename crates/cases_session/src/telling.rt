//! The replies, reasons and faults that clients are told, in JSON.
use crate::saying::message_json;
use message_tree::{Octets, Shared, Text};
use session::{Fault, Item, Reason, Request, Who, abort_uri, item_message};
use std::alloc::Global;
use std::io;
use wamp_ids::{Conn, Id};

/// An item's message in JSON, as a line.
fn told(alloc: Global, item: &Item) -> io::Result<String> {
    match item_message(alloc, item)? {
        Some(message) => {
            let json = message_json(alloc, &message)?;
            Ok(format!(in alloc; "{json}\n")?)
        }
        None => Ok(String::from_str(alloc, "no message\n")?),
    }
}

/// Connection 5 with this session id.
pub fn anonymous(alloc: Global, id: u64) -> Option<Who> {
    Some(Who {
        conn: Conn::new(5)?,
        id: Id::new(id).ok()?,
        authid: Shared::new(alloc, Text::of(alloc, "anonymous").ok()?).ok()?,
        authrole: Shared::new(alloc, Text::of(alloc, "anonymous").ok()?).ok()?,
    })
}

/// The same, where there is an item: there is one, unless memory was refused.
pub fn told_if(alloc: Global, item: Option<Item>) -> io::Result<String> {
    match &item {
        None => Ok(String::from_str(alloc, "no item, or E1 no memory\n")?),
        Some(item) => told(alloc, item),
    }
}

fn subscribed() -> Option<Item> {
    Some(Item::Subscribed {
        request: Id::new(9007199254740992).ok()?,
        subscription: Id::new(2).ok()?,
    })
}

fn published() -> Option<Item> {
    Some(Item::Published {
        request: Id::new(2).ok()?,
        publication: Id::new(9007199254740992).ok()?,
    })
}

fn unsubscribed() -> Option<Item> {
    Some(Item::Unsubscribed {
        request: Id::new(9007199254740992).ok()?,
    })
}

fn welcome(alloc: Global) -> Option<Item> {
    Some(Item::Welcome(anonymous(alloc, 1)?))
}

fn pong(alloc: Global) -> Option<Item> {
    Some(Item::Pong(Octets::of(alloc, b"abcd".as_slice()).ok()?))
}

/// An item of each kind but EVENT.
pub fn each_kind(alloc: Global) -> [Option<Item>; 8] {
    [
        welcome(alloc),
        Some(Item::Abort(Reason::NoSuchRealm)),
        Some(Item::Goodbye(Reason::GoodbyeAndOut)),
        error_of(Request::Subscribe, Reason::InvalidUri),
        published(),
        subscribed(),
        unsubscribed(),
        pong(alloc),
    ]
}

/// Each reply that has no reason.
pub fn replies(alloc: Global) -> io::Result<String> {
    let welcome = told_if(alloc, welcome(alloc))?;
    let subscribed = told_if(alloc, subscribed())?;
    let published = told_if(alloc, published())?;
    let unsubscribed = told_if(alloc, unsubscribed())?;
    let pong = told_if(alloc, pong(alloc))?;
    Ok(format!(in alloc; "{welcome}{subscribed}{published}{unsubscribed}{pong}")?)
}

const REASONS: [Reason; 11] = [
    Reason::ProtocolViolation,
    Reason::NoSuchRealm,
    Reason::NotAuthorized,
    Reason::SessionIdTaken,
    Reason::InvalidUri,
    Reason::InvalidArgument,
    Reason::NoSuchSubscription,
    Reason::TooManySubscriptions,
    Reason::RetainedFull,
    Reason::GoodbyeAndOut,
    Reason::SystemShutdown,
];

/// Each message that has a reason.
pub fn reasons(alloc: Global) -> io::Result<String> {
    let mut text = String::new(alloc);
    for reason in REASONS {
        text.push_str(with_reason(alloc, reason)?.as_str())?;
    }
    Ok(text)
}

fn with_reason(alloc: Global, reason: Reason) -> io::Result<String> {
    let abort = told_if(alloc, Some(Item::Abort(reason)))?;
    let goodbye = told_if(alloc, Some(Item::Goodbye(reason)))?;
    let errors = errors(alloc, reason)?;
    Ok(format!(in alloc; "{abort}{goodbye}{errors}")?)
}

fn errors(alloc: Global, reason: Reason) -> io::Result<String> {
    let mut text = String::new(alloc);
    for kind in [Request::Publish, Request::Subscribe, Request::Unsubscribe] {
        text.push_str(told_if(alloc, error_of(kind, reason))?.as_str())?;
    }
    Ok(text)
}

fn error_of(kind: Request, reason: Reason) -> Option<Item> {
    Some(Item::Error {
        kind,
        request: Id::new(7).ok()?,
        reason,
    })
}

const FAULTS: [Fault; 15] = [
    Fault::NoMemory,
    Fault::TooDeep,
    Fault::Malformed,
    Fault::NotRawSocket,
    Fault::SerializerUnsupported,
    Fault::ReservedBits,
    Fault::FrameTooLong,
    Fault::FrameType,
    Fault::Shape,
    Fault::ReadFault,
    Fault::WriteFault,
    Fault::TooLongForClient,
    Fault::Ended,
    Fault::NoSuchRealm,
    Fault::TooManyTurns,
];

/// Each fault as it is printed, and the URI of its ABORT.
pub fn faults(alloc: Global) -> io::Result<String> {
    let mut text = String::new(alloc);
    for fault in FAULTS {
        text.push_str(fault_line(alloc, fault)?.as_str())?;
    }
    Ok(text)
}

fn fault_line(alloc: Global, fault: Fault) -> io::Result<String> {
    let uri = abort_uri(fault).unwrap_or("no ABORT");
    Ok(format!(in alloc; "{fault}: {uri}\n")?)
}
