//! What is told of requests, of the broker and of its realms.
use crate::case::{conn_of, in_text, word_of};
use case_text::{number_of, part};
use log_lines::{BrokerSummary, RealmStats, RefusedRequest, request_refused, started, stats};
use std::alloc::Global;
use std::io;
use wamp_messages::Request;

/// A request that was refused: `kind request error [topic]`.
pub fn told_request(alloc: Global, rest: &str) -> io::Result<String> {
    let (kind, rest) = part(rest);
    let (_, behind) = part(rest);
    let (error, topic) = part(behind);
    let error = word_of(alloc, error)?;
    let topic = word_of(alloc, topic)?;
    let named = if topic.as_str().is_empty() {
        None
    } else {
        Some(topic.as_str())
    };
    let request = RefusedRequest {
        kind: match kind {
            "publish" => Request::Publish,
            "subscribe" => Request::Subscribe,
            _ => Request::Unsubscribe,
        },
        request: number_of(rest),
        error: error.as_str(),
        topic: named,
    };
    in_text(alloc, request_refused(alloc, conn_of(7)?, &request))
}

/// A broker that serves: `version realms outbox limits`, each but the outbox a spelt text.
pub fn told_started(alloc: Global, rest: &str) -> io::Result<String> {
    let (version, rest) = part(rest);
    let (realms, rest) = part(rest);
    let (_, limits) = part(rest);
    let version = word_of(alloc, version)?;
    let realms = word_of(alloc, realms)?;
    let limits = word_of(alloc, limits)?;
    let broker = BrokerSummary {
        version: version.as_str(),
        realms: realms.as_str(),
        outbox: number_of(rest),
        limits: limits.as_str(),
    };
    in_text(alloc, started(alloc, &broker))
}

/// A realm, by its name and nine numbers in the order of the line.
pub fn told_stats(alloc: Global, rest: &str) -> io::Result<String> {
    let (realm, sessions) = part(rest);
    let (_, subscriptions) = part(sessions);
    let (_, retained) = part(subscriptions);
    let (_, retained_octets) = part(retained);
    let (_, longest_outbox) = part(retained_octets);
    let (_, posts) = part(longest_outbox);
    let (_, publications) = part(posts);
    let (_, events) = part(publications);
    let (_, cut) = part(events);
    let told = RealmStats {
        sessions: number_of(sessions),
        subscriptions: number_of(subscriptions),
        retained: number_of(retained),
        retained_octets: number_of(retained_octets),
        longest_outbox: number_of(longest_outbox),
        posts: number_of(posts),
        publications: number_of(publications),
        events: number_of(events),
        cut: number_of(cut),
    };
    in_text(alloc, stats(alloc, realm, &told))
}
