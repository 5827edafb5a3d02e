//! The log of a broker that serves: how it begins, and how its end is waited for.
use broker_server::{BrokerSummary, Log, LogEnd, Serving, Telling, VERSION, listening, started};
use rawsocket::devices::Sink;
use std::alloc::{AllocError, Global};
use std::sync::Wait;
use std::thread::{self, Threads};
use std::time::{Clock, Duration};

/// The limits that no option changes: connections, subscriptions of a session, retained topics of a realm.
const LIMITS: &str = "connections=256 subscriptions=256 retained=1000";

/// Starts the log that is written to `errors`, if there are any, by where it listens and what is served.
pub fn start_log<
    R: Threads + Wait + Clock + Copy + Send + 'static,
    E: Sink + Drop + Send + 'static,
>(
    rt: R,
    alloc: Global,
    errors: Option<E>,
    serving: &Serving,
) -> Result<(Option<Log>, Option<LogEnd>), AllocError> {
    let Some(errors) = errors else {
        return Ok((None, None));
    };
    let telling = telling_of(alloc, serving)?;
    let (log, end) = Log::start_telling(rt, alloc, errors, telling)?;
    log.tell(&rt, listening(alloc, serving.host.as_str(), serving.port));
    log.tell(&rt, started_line(alloc, serving));
    Ok((Some(log), Some(end)))
}

/// What the log tells from time to time, if it does.
fn telling_of(alloc: Global, serving: &Serving) -> Result<Option<Telling>, AllocError> {
    let Some(seconds) = serving.stats else {
        return Ok(None);
    };
    let mut realms = Vec::new(alloc);
    for realm in &serving.config.realms {
        realms.push(String::from_str(alloc, realm.text())?)?;
    }
    Ok(Some(Telling { seconds, realms }))
}

/// What is served, and by which limits.
fn started_line(alloc: Global, serving: &Serving) -> Result<Vec<u8>, AllocError> {
    let mut realms = String::new(alloc);
    for realm in &serving.config.realms {
        if !realms.is_empty() {
            realms.push(' ')?;
        }
        realms.push_str(realm.text())?;
    }
    let octets = serving.bound.most_octets();
    let limits = format!(in alloc; "octets={octets} {LIMITS}")?;
    let broker = BrokerSummary {
        version: VERSION,
        realms: realms.as_str(),
        outbox: serving.config.outbox as u64,
        limits: limits.as_str(),
    };
    started(alloc, &broker)
}

/// Waits until a log is written, but no longer than a second: its sink may take nothing.
pub fn await_end<R: Clock>(clock: &R, end: &LogEnd) {
    for _ in 0..200 {
        if end.is_over() {
            return;
        }
        thread::sleep(clock, Duration::from_millis(5));
    }
}
