//! What is told of connections, and of the broker.
use crate::fate::Fate;
use crate::log::Log;
use crate::plan::Plan;
use broker_config::Fault;
use log_lines::{
    CloseReason, ConnectionEnd, ConnectionRefusal, RefusedRequest, Stopping, Traffic,
    accept_failed, accepted, closed, refused, request_refused, retained_full, stopping,
};
use message_tree::Text;
use realm::Refusal;
use session::uri;
use std::sync::Wait;
use std::time::Clock;
use wamp_ids::{Conn, Topic};

/// Tells of a connection that got its number.
pub fn tell_accepted<R: Wait + Clock>(rt: &R, plan: &Plan, conn: Conn, peer: &Option<String>) {
    let connections = plan.count_in();
    if let Some(log) = &plan.log {
        log.tell(rt, accepted(log.alloc(), conn, text_of(peer), connections));
    }
}

/// Tells of a connection that is refused before it gets a number.
pub fn tell_refused<R: Wait + Clock>(
    rt: &R,
    log: &Option<Log>,
    peer: &Option<String>,
    refusal: ConnectionRefusal,
) {
    if let Some(log) = log {
        log.tell(rt, refused(log.alloc(), text_of(peer), refusal));
    }
}

/// Tells of a connection that is closed, after all that its fate says.
pub fn tell_closed<R: Wait + Clock>(
    rt: &R,
    plan: &Plan,
    conn: Conn,
    reason: CloseReason,
    fate: &Fate,
) {
    let connections = plan.count_out();
    let Some(log) = &plan.log else {
        return;
    };
    let (realm, authid) = match fate.take_asked(rt) {
        Some(asked) if is_ungranted(reason) => (Some(asked.realm), asked.authid),
        _ => (None, None),
    };
    let closing = ConnectionEnd {
        reason,
        realm: words_of(&realm),
        authid: words_of(&authid),
        traffic: fate.traffic(),
    };
    log.tell(rt, closed(log.alloc(), conn, &closing, connections));
}

/// Tells of a connection that is closed before anything was read of it.
pub fn tell_unserved<R: Wait + Clock>(rt: &R, plan: &Plan, conn: Conn, reason: CloseReason) {
    let connections = plan.count_out();
    let Some(log) = &plan.log else {
        return;
    };
    let closing = ConnectionEnd {
        reason,
        realm: None,
        authid: None,
        traffic: Traffic::NONE,
    };
    log.tell(rt, closed(log.alloc(), conn, &closing, connections));
}

// Whether a connection was closed as its HELLO asked for what it isn't granted.
fn is_ungranted(reason: CloseReason) -> bool {
    matches!(
        reason,
        CloseReason::NotOpened(session::Fault::NoSuchRealm) | CloseReason::NotAdmitted
    )
}

// The words of a text, if there is one.
fn words_of(text: &Option<Text>) -> Option<&str> {
    match text {
        Some(text) => Some(text.as_str()),
        None => None,
    }
}

/// Tells of the first request of a session that was refused.
pub fn tell_request_refused<R: Wait + Clock>(rt: &R, log: &Option<Log>, refusal: &Refusal) {
    let Some(log) = log else {
        return;
    };
    let request = RefusedRequest {
        kind: refusal.kind,
        request: refusal.request.value(),
        error: uri(refusal.reason),
        topic: words_of(&refusal.topic),
    };
    log.tell(rt, request_refused(log.alloc(), refusal.conn, &request));
}

/// Tells that as many topics of a realm as may have a retained publication have one.
pub fn tell_retained_full<R: Wait + Clock>(rt: &R, log: &Option<Log>, realm: &Topic) {
    if let Some(log) = log {
        log.tell(rt, retained_full(log.alloc(), realm.text()));
    }
}

/// Tells why accepting failed.
pub fn tell_failed<R: Wait + Clock>(rt: &R, log: &Log, reason: &Option<String>) {
    log.tell(rt, accept_failed(log.alloc(), text_of(reason)));
}

/// Tells why the broker stops.
pub fn tell_stopping<R: Wait + Clock>(rt: &R, log: &Option<Log>, served: &Result<(), Fault>) {
    if let Some(log) = log {
        log.tell(rt, stopping(log.alloc(), why(served)));
    }
}

// Why it does, by how serving ended.
fn why(served: &Result<(), Fault>) -> Stopping {
    match served {
        Ok(()) => Stopping::Asked,
        Err(Fault::ListenFault) => Stopping::ListenFault,
        Err(Fault::NoMemory) => Stopping::NoMemory,
    }
}

// A text, or nothing.
fn text_of(text: &Option<String>) -> &str {
    match text {
        Some(text) => text.as_str(),
        None => "",
    }
}
