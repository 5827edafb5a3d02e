//! Patterns, and what they match.
use crate::naming::fault_line;
use case_text::{line_of, part_of, spelled, text_of};
use std::alloc::Global;
use std::io;
use wamp_ids::{Fault, Pattern, Policy, Topic, dot_in};

fn policy_of(name: &str) -> Policy {
    match name {
        "prefix" => Policy::Prefix,
        "wildcard" => Policy::Wildcard,
        _ => Policy::Exact,
    }
}

/// How a policy is named.
pub fn name_of(policy: Policy) -> &'static str {
    match policy {
        Policy::Exact => "exact",
        Policy::Prefix => "prefix",
        Policy::Wildcard => "wildcard",
    }
}

/// The pattern of a policy and a text.
fn pattern_of(alloc: Global, policy: &str, text: &str) -> io::Result<Result<Pattern, Fault>> {
    let text = text_of(alloc, part_of(text))?;
    Ok(Pattern::read(alloc, policy_of(policy), text.as_str()))
}

/// The pattern of the words `POLICY TEXT`.
pub fn pattern(alloc: Global, words: &str) -> io::Result<String> {
    let Some((policy, text)) = words.split_once(' ') else {
        return line_of(alloc, "no policy");
    };
    match pattern_of(alloc, policy, text)? {
        Ok(pattern) => copied(alloc, &pattern),
        Err(fault) => fault_line(alloc, fault),
    }
}

/// A pattern in words, by a copy of it.
fn copied(alloc: Global, pattern: &Pattern) -> io::Result<String> {
    let copy = pattern.try_copy(alloc)?;
    if !copy.is_same(pattern) {
        return line_of(alloc, "the copy differs");
    }
    let policy = name_of(copy.policy());
    let text = spelled(alloc, copy.text().as_bytes())?;
    Ok(format!(in alloc; "{policy} {text}\n")?)
}

/// Whether the pattern of the words `POLICY TEXT TOPIC` matches the topic.
pub fn matches(alloc: Global, words: &str) -> io::Result<String> {
    let mut words = words.split(' ');
    let policy = words.next().unwrap_or("");
    let text = words.next().unwrap_or("");
    match pattern_of(alloc, policy, text)? {
        Ok(pattern) => matches_topic(alloc, &pattern, words.next().unwrap_or("")),
        Err(fault) => fault_line(alloc, fault),
    }
}

fn matches_topic(alloc: Global, pattern: &Pattern, text: &str) -> io::Result<String> {
    let text = text_of(alloc, text)?;
    match Topic::read(alloc, text.as_str()) {
        Ok(topic) => truth(alloc, pattern.matches(&topic)),
        Err(fault) => fault_line(alloc, fault),
    }
}

fn truth(alloc: Global, holds: bool) -> io::Result<String> {
    Ok(format!(in alloc; "{holds}\n")?)
}

/// Whether the patterns of the words `POLICY TEXT POLICY TEXT` are the same.
pub fn same(alloc: Global, words: &str) -> io::Result<String> {
    let mut words = words.split(' ');
    let policy = words.next().unwrap_or("");
    let text = words.next().unwrap_or("");
    match pattern_of(alloc, policy, text)? {
        Ok(pattern) => {
            let policy = words.next().unwrap_or("");
            is_same(alloc, &pattern, policy, words.next().unwrap_or(""))
        }
        Err(fault) => fault_line(alloc, fault),
    }
}

fn is_same(alloc: Global, pattern: &Pattern, policy: &str, text: &str) -> io::Result<String> {
    match pattern_of(alloc, policy, text)? {
        Ok(other) => {
            let is_same = other.is_same(pattern);
            let is_equal = other == *pattern;
            Ok(format!(in alloc; "{is_same} {is_equal}\n")?)
        }
        Err(fault) => fault_line(alloc, fault),
    }
}

/// The place of the first dot of a text.
pub fn dot(alloc: Global, text: &str) -> io::Result<String> {
    let text = text_of(alloc, part_of(text))?;
    match dot_in(text.as_bytes()) {
        None => line_of(alloc, "no dot"),
        Some(place) => Ok(format!(in alloc; "dot {place}\n")?),
    }
}
