//! What a broker is served with, and the lines that tell it.
ghost use Rattle.std.specs.Prelude.{◌≡◌, ◌++◌, IfOk, OnOk, codes, decimal};
ghost use Rattle.command_line.specs.Grants.{bytes_of};
ghost use Rattle.command_line.specs.Reasons.{shown};
ghost use Rattle.command_line.specs.Served.{grant_line, grant_lines, ids_word, line, log_word, realm_lines, served_lines, stats_word};

use crate::printable::push_all;
use broker_config::{Config, Ids};
use itoa::Buffer;
use rawsocket::MessageBound;
use std::alloc::{AllocError, Global};
use wamp_ids::Topic;

/// What is done with the words of `serve`.
#[derive(Clone, Copy, Debug, Drop, PartialEq, Eq)]
pub enum Purpose {
    /// A broker serves.
    Serve,
    /// It is told what one would serve, where it could have its port.
    Check,
    /// It is told what one would serve, whoever has its port.
    CheckUnbound,
}

/// A broker over TCP, as the words describe it.
#[derive(Drop)]
pub struct Serving {
    /// What is done with it.
    pub purpose: Purpose,
    /// The name or address that it listens at.
    pub host: String,
    /// The port that it listens at, from 1.
    pub port: u16,
    /// What it runs on.
    pub config: Config,
    /// Whether it tells on standard error what happens to connections.
    pub log: bool,
    /// How often that tells of each realm, in seconds from 1 to 86,400, if it does; only where `log` is true.
    pub stats: Option<u32>,
    /// How long the messages of clients may be.
    pub bound: MessageBound,
}

/// What is served, a line for each thing: its name as the words have it, a space, and its value, in which whatever isn't printable ASCII
/// is spelt by its octets, `\x1b`.
///
/// # Errors
/// [`AllocError`] where a growth was refused.
pub fn served_lines(alloc: Global, serving: &Serving) -> Result<Vec<u8>, AllocError>
    ensures { IfOk result (λ lines. lines.items ≡ served_lines serving.now) }
{
    let mut lines = Vec::new(alloc);
    let config = &serving.config;
    put_text(&mut lines, "host", serving.host.as_str())?;
    put_number(&mut lines, "port", serving.port as u64)?;
    put_realms(&mut lines, &config.realms)?;
    put_grants(&mut lines, &config.grants)?;
    put_number(&mut lines, "outbox", config.outbox as u64)?;
    put_text(&mut lines, "ids", ids_word(config.ids))?;
    put_text(&mut lines, "log", log_word(serving.log))?;
    put_stats(&mut lines, serving.stats)?;
    let longest = serving.bound.most_octets();
    put_number(&mut lines, "longest-message", longest as u64)?;
    Ok(lines)
}

/// Adds a line for each realm.
fn put_realms(lines: &mut Vec<u8>, realms: &[Topic]) -> Result<(), AllocError>
    ensures { OnOk result (lines.new.items ≡ lines.old.items ++ realm_lines realms.now) }
{
    for realm in realms {
        put_text(lines, "realm", realm.text())?;
    }
    Ok(())
}

/// Adds a line for each grant.
fn put_grants(lines: &mut Vec<u8>, grants: &[(String, String)]) -> Result<(), AllocError>
    ensures { OnOk result (lines.new.items ≡ lines.old.items ++ grant_lines (bytes_of grants.now)) }
{
    for grant in grants {
        put_grant(lines, grant.0.as_str(), grant.1.as_str())?;
    }
    Ok(())
}

/// Adds the line that tells how often the log tells of each realm.
fn put_stats(lines: &mut Vec<u8>, stats: Option<u32>) -> Result<(), AllocError>
    ensures { OnOk result
        (lines.new.items ≡ lines.old.items ++ line (codes "stats") (stats_word stats)) }
{
    match stats {
        Some(seconds) => put_number(lines, "stats", seconds as u64),
        None => put_text(lines, "stats", "no"),
    }
}

/// Adds the line of a grant.
fn put_grant(lines: &mut Vec<u8>, authid: &str, role: &str) -> Result<(), AllocError>
    ensures { OnOk result (lines.new.items ≡ lines.old.items ++ grant_line authid.now role.now) }
{
    lines.extend_from_slice(b"grant ")?;
    push_all(lines, authid.as_bytes())?;
    lines.push(b':')?;
    push_all(lines, role.as_bytes())?;
    lines.push(b'\n')?;
    Ok(())
}

/// Adds a line whose value is a text.
fn put_text(lines: &mut Vec<u8>, name: &str, text: &str) -> Result<(), AllocError>
    ensures { OnOk result (lines.new.items ≡ lines.old.items ++ line name.now (shown text.now)) }
{
    lines.extend_from_slice(name.as_bytes())?;
    lines.push(b' ')?;
    push_all(lines, text.as_bytes())?;
    lines.push(b'\n')?;
    Ok(())
}

/// Adds a line whose value is a number.
fn put_number(lines: &mut Vec<u8>, name: &str, number: u64) -> Result<(), AllocError>
    ensures { OnOk result (lines.new.items ≡ lines.old.items ++ line name.now (decimal number)) }
{
    let mut digits = Buffer::new();
    lines.extend_from_slice(name.as_bytes())?;
    lines.push(b' ')?;
    lines.extend_from_slice(digits.format(number).as_bytes())?;
    lines.push(b'\n')?;
    Ok(())
}

/// What `--ids` is told.
fn ids_word(ids: Ids) -> &'static str
    ensures { result.now ≡ ids_word ids }
{
    match ids {
        Ids::Random => "random",
        Ids::Count => "count",
    }
}

/// Whether `--log` was said.
fn log_word(log: bool) -> &'static str
    ensures { result.now ≡ log_word log }
{
    if log { "yes" } else { "no" }
}
