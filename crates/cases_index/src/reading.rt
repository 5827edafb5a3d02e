//! What the words of a line name.
use case_text::{number_of, part_of, text_of};
use std::alloc::Global;
use std::io;
use wamp_ids::{Conn, Fault, Id, Pattern, Policy, Topic};

/// The connection and the id that the words `CONN NUMBER` name.
pub fn holding_of(words: &str) -> Option<(Conn, Id)> {
    let (conn, number) = words.split_once(' ')?;
    let conn = Conn::new(number_of(conn))?;
    let number = Id::new(number_of(number)).ok()?;
    Some((conn, number))
}

/// The pattern that the words `POLICY TEXT` name.
pub fn pattern_of(alloc: Global, words: &str) -> io::Result<Result<Pattern, Fault>> {
    match words.split_once(' ') {
        None => Ok(Err(Fault::BadUri)),
        Some((policy, text)) => {
            let text = text_of(alloc, part_of(text))?;
            Ok(Pattern::read(alloc, policy_of(policy), text.as_str()))
        }
    }
}

/// The topic of this text.
pub fn topic_of(alloc: Global, text: &str) -> io::Result<Result<Topic, Fault>> {
    let text = text_of(alloc, text)?;
    Ok(Topic::read(alloc, text.as_str()))
}

fn policy_of(name: &str) -> Policy {
    match name {
        "prefix" => Policy::Prefix,
        "wildcard" => Policy::Wildcard,
        _ => Policy::Exact,
    }
}

/// The name of a policy.
pub fn name_of(policy: Policy) -> &'static str {
    match policy {
        Policy::Exact => "exact",
        Policy::Prefix => "prefix",
        Policy::Wildcard => "wildcard",
    }
}
