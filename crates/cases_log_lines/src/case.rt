//! What each word is answered by.
use crate::closing::{asked, full, long, openings, reasons, traffic, violations};
use crate::telling::{told_request, told_started, told_stats};
use case_text::{Table, line_of, number_of, part, part_of, text_of};
use log_lines::{
    ConnectionRefusal, Opening, Stopping, accept_failed, accepted, end_line, listening, lost,
    moment, opened, refused, retained_full, stopping,
};
use rawsocket::Serializer;
use std::alloc::{AllocError, Global};
use std::io;
use std::time::Duration;
use wamp_ids::Conn;

/// A case, which keeps nothing.
#[derive(Drop)]
pub struct Case {}

impl Table for Case {
    fn take(&mut self, alloc: Global, line: &str) -> io::Result<String> {
        let (word, rest) = part(line);
        match word {
            "#" => line_of(alloc, line),
            "listening" => told_listening(alloc, rest),
            "accepted" => told_accepted(alloc, rest),
            "refused" => told_refused(alloc, rest, ConnectionRefusal::NoSeat),
            "lacking" => told_refused(alloc, rest, ConnectionRefusal::NoMemory),
            "store" => in_text(alloc, retained_full(alloc, word_of(alloc, rest)?.as_str())),
            "failed" => told_failed(alloc, rest),
            "stopping" => told_stopping(alloc, rest),
            "lost" => in_text(alloc, lost(alloc, number_of(rest))),
            "opened" => told_opened(alloc, rest),
            "full" => full(alloc, number_of(rest)),
            "long" => long(alloc, rest),
            "reasons" => reasons(alloc),
            "asked" => asked(alloc, rest),
            "traffic" => traffic(alloc, rest),
            "request" => told_request(alloc, rest),
            "started" => told_started(alloc, rest),
            "stats" => told_stats(alloc, rest),
            "ended" => told_ended(alloc, rest),
            "moment" => told_moment(alloc, rest),
            "violations" => violations(alloc),
            "openings" => openings(alloc),
            _ => line_of(alloc, "no case has this word"),
        }
    }
}

/// A line without its end, as a text: what isn't UTF-8 is no line.
pub fn in_text(alloc: Global, line: Result<Vec<u8>, AllocError>) -> io::Result<String> {
    match String::from_utf8(line?) {
        Ok(text) => line_of(alloc, text.as_str()),
        Err(_) => line_of(alloc, "no text"),
    }
}

// A line with its end, as it is written.
fn told_ended(alloc: Global, at: &str) -> io::Result<String> {
    let mut line = lost(alloc, 1)?;
    end_line(&mut line, at)?;
    match String::from_utf8(line) {
        Ok(text) => Ok(text),
        Err(_) => line_of(alloc, "no text"),
    }
}

// A moment, by its seconds and milliseconds behind the beginning of 1970.
fn told_moment(alloc: Global, rest: &str) -> io::Result<String> {
    let (_, millis) = part(rest);
    let since = Duration::from_secs(number_of(rest));
    let since = since.saturating_add(Duration::from_millis(number_of(millis)));
    line_of(alloc, moment(alloc, since)?.as_str())
}

/// A connection of this number.
pub fn conn_of(number: u64) -> io::Result<Conn> {
    match Conn::new(number) {
        Some(conn) => Ok(conn),
        None => Err(AllocError)?,
    }
}

/// The text that a word spells.
pub fn word_of(alloc: Global, word: &str) -> io::Result<String> {
    text_of(alloc, part_of(word))
}

fn told_listening(alloc: Global, rest: &str) -> io::Result<String> {
    let (_, host) = part(rest);
    let host = word_of(alloc, host)?;
    let port = (number_of(rest) % 65536) as u16;
    in_text(alloc, listening(alloc, host.as_str(), port))
}

fn told_accepted(alloc: Global, rest: &str) -> io::Result<String> {
    let (_, behind) = part(rest);
    let (peer, connections) = part(behind);
    let peer = word_of(alloc, peer)?;
    let conn = conn_of(number_of(rest))?;
    let connections = number_of(connections);
    in_text(alloc, accepted(alloc, conn, peer.as_str(), connections))
}

fn told_refused(alloc: Global, rest: &str, refusal: ConnectionRefusal) -> io::Result<String> {
    let peer = word_of(alloc, rest)?;
    in_text(alloc, refused(alloc, peer.as_str(), refusal))
}

fn told_failed(alloc: Global, rest: &str) -> io::Result<String> {
    let reason = word_of(alloc, rest)?;
    in_text(alloc, accept_failed(alloc, reason.as_str()))
}

fn told_stopping(alloc: Global, rest: &str) -> io::Result<String> {
    let why = match rest {
        "asked" => Stopping::Asked,
        "listen_fault" => Stopping::ListenFault,
        _ => Stopping::NoMemory,
    };
    in_text(alloc, stopping(alloc, why))
}

fn told_opened(alloc: Global, rest: &str) -> io::Result<String> {
    let (conn, rest) = part(rest);
    let (session, rest) = part(rest);
    let (name, rest) = part(rest);
    let (limit, rest) = part(rest);
    let (realm, rest) = part(rest);
    let (authid, authrole) = part(rest);
    let serializer = match name {
        "json" => Serializer::Json,
        _ => Serializer::MsgPack,
    };
    let authid = word_of(alloc, authid)?;
    let authrole = word_of(alloc, authrole)?;
    let opening = Opening {
        session: number_of(session),
        realm,
        authid: authid.as_str(),
        authrole: authrole.as_str(),
        serializer,
        limit: (number_of(limit) % 16_777_216) as u32,
    };
    in_text(alloc, opened(alloc, conn_of(number_of(conn))?, &opening))
}
