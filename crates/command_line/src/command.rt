//! What a command line asks for.
ghost use Rattle.std.specs.Prelude.{◌≡◌, ◌⊎◌, ◌≤◌, true, IfErr, IfOk, length, string_bytes};
ghost use Rattle.command_line.specs.Commands.{IsInterval, IsRunnable, IsVersion, SaysVersion, SuitsLog, SuitsPurpose, are_distinct, asks_for_version, has_option, is_among, purpose_of};
ghost use Rattle.command_line.specs.Reasons.{EndsIn, NamesValue, command_of, hint, no_realm};

use crate::clients::{read_publish, read_subscribe};
use crate::fault::Fault;
use crate::grammar::grammar;
use crate::grants::{read_grants, wrong_grants};
use crate::refusal::{CommandRefusal, command_of, one_line, refused, refused_value, with_hint};
use crate::serving::Purpose;
use crate::version::{asks_for_version, version};
use broker_config::{Config, Ids};
use clap::ArgMatches;
use clap::error::ErrorKind;
use client_commands::{PublishCommand, SubscribeCommand};
use rawsocket::MessageBound;
use std::alloc::{AllocError, Global};
use wamp_ids::Topic;

/// The host that is served at, unless another one is named.
const HOST: &str = "127.0.0.1";

/// The room of an outbox, unless another one is named.
const OUTBOX: usize = 256;

/// The most room of an outbox.
const MOST_OUTBOX: usize = 65536;

/// The most realms.
const MOST_REALMS: usize = 16;

/// The most seconds from one time that the log tells of each realm to the next: a day.
const LONGEST_INTERVAL: u32 = 86400;

/// What the words behind `serve` are, to the parser.
const REALMS: &str = "<REALM>...";

/// What a command line asks for.
#[derive(Drop)]
pub enum Command {
    /// The help, to be printed.
    Help(String),
    /// The line that says which version this is, to be printed.
    Version(String),
    /// A replay of the first realm.
    Replay(Config),
    /// A broker over TCP, or a check of what one would serve.
    Serve {
        /// The name or address that it listens at.
        host: String,
        /// The port that it listens at, from 1.
        port: u16,
        /// What it runs on.
        config: Config,
        /// Whether it tells on standard error what happens to connections.
        log: bool,
        /// How often that tells of each realm, in seconds from 1 to 86,400, if it does; only where `log` is true.
        stats: Option<u32>,
        /// How long the messages of clients may be.
        bound: MessageBound,
        /// Whether it is served, or only checked.
        purpose: Purpose,
    },
    /// A client that prints events.
    Subscribe(SubscribeCommand),
    /// A client that publishes.
    Publish(PublishCommand),
    /// A client that publishes the octets of a file as one argument. The command has none before it is read.
    PublishFile {
        /// Where it is; `-` stands for standard input.
        path: String,
        /// All else.
        command: PublishCommand,
    },
}

/// Reads the words after the program's name. A replay has the outbox and the ids that are taken where none are named.
///
/// # Errors
/// `Usage` where they are no command line of this program, of which `explain` says what is wrong; `NoMemory` where a growth was refused.
pub fn read_command(alloc: Global, words: &[String]) -> Result<Command, Fault>
    ensures runnable { IfOk result IsRunnable }
    ensures fault { IfErr result (λ fault. (fault ≡ Fault.NoMemory) ⊎ (fault ≡ Fault.Usage)) }
    ensures version { asks_for_version words.now ≡ true → IfOk result IsVersion }
    ensures asked { asks_for_version words.now ≡ true
        → IfErr result (λ fault. fault ≡ Fault.NoMemory) }
    ensures says { IfOk result SaysVersion }
    ensures purpose { IfOk result (SuitsPurpose (purpose_of words.now)) }
    ensures stats { IfOk result SuitsLog }
{
    match read_words(alloc, words) {
        Ok(command) => Ok(command),
        Err(refusal) => Err(refusal.fault()),
    }
}

/// What is wrong with words that `read_command` refuses with `Usage`, and where help is. The text may hold any octets of the words:
/// `shown_line` makes a line of it that can be printed.
///
/// # Errors
/// [`AllocError`] where a growth was refused.
pub fn explain(alloc: Global, words: &[String]) -> Result<String, AllocError>
    ensures hint { IfOk result (λ text. EndsIn (hint (command_of words.now)) (string_bytes text)) }
{
    let reason = reason_of(alloc, words)?;
    with_hint(alloc, reason.as_str(), command_of(words))
}

/// What is wrong with words.
fn reason_of(alloc: Global, words: &[String]) -> Result<String, AllocError> {
    match read_words(alloc, words) {
        Ok(_) => String::from_str(alloc, "nothing is wrong"),
        Err(CommandRefusal::NoMemory) => Err(AllocError),
        Err(CommandRefusal::Usage(reason)) => Ok(reason),
    }
}

/// The help that `--help` asks for.
///
/// # Errors
/// [`AllocError`] where a growth was refused.
pub fn help(alloc: Global) -> Result<String, AllocError> {
    let words = vec![in alloc; String::from_str(alloc, "--help")?]?;
    match read_words(alloc, &words) {
        Ok(Command::Help(text)) => Ok(text),
        _ => Err(AllocError),
    }
}

/// What the words ask for.
fn read_words(alloc: Global, words: &[String]) -> Result<Command, CommandRefusal>
    ensures runnable { IfOk result IsRunnable }
    ensures version { asks_for_version words.now ≡ true → IfOk result IsVersion }
    ensures asked { asks_for_version words.now ≡ true
        → IfErr result (λ refusal. refusal ≡ CommandRefusal.NoMemory) }
    ensures says { IfOk result SaysVersion }
    ensures purpose { IfOk result (SuitsPurpose (purpose_of words.now)) }
    ensures stats { IfOk result SuitsLog }
{
    if asks_for_version(words) {
        return Ok(Command::Version(version(alloc)?));
    }
    match grammar(alloc)?.try_get_matches_from(words) {
        Ok(matches) => read_matches(alloc, &matches, purpose_of(words)),
        Err(error) => read_error(alloc, &error),
    }
}

/// What is asked for where the parser found no command: help, or nothing that is any.
fn read_error(alloc: Global, error: &clap::Error) -> Result<Command, CommandRefusal>
    ensures runnable { IfOk result IsRunnable }
    ensures says { IfOk result SaysVersion }
    ensures purpose { (wanted : Purpose) → IfOk result (SuitsPurpose wanted) }
    ensures stats { IfOk result SuitsLog }
{
    match error.kind() {
        ErrorKind::DisplayHelp => Ok(Command::Help(format!(in alloc; "{error}")?)),
        ErrorKind::DisplayVersion => Ok(Command::Version(version(alloc)?)),
        ErrorKind::OutOfMemory => Err(CommandRefusal::NoMemory),
        _ => {
            let text = format!(in alloc; "{error}")?;
            Err(CommandRefusal::Usage(one_line(alloc, text.as_str())?))
        }
    }
}

/// What the words that were found ask for; those of `serve` for this.
fn read_matches(
    alloc: Global,
    matches: &ArgMatches<'_>,
    purpose: Purpose,
) -> Result<Command, CommandRefusal>
    ensures runnable { IfOk result IsRunnable }
    ensures says { IfOk result SaysVersion }
    ensures purpose { IfOk result (SuitsPurpose purpose) }
    ensures stats { IfOk result SuitsLog }
{
    if let Some(replay) = matches.subcommand_matches("replay") {
        return read_replay(alloc, replay);
    }
    if let Some(subscribe) = matches.subcommand_matches("subscribe") {
        return Ok(Command::Subscribe(read_subscribe(alloc, subscribe)?));
    }
    if let Some(publish) = matches.subcommand_matches("publish") {
        return read_publishing(alloc, publish);
    }
    match matches.subcommand_matches("serve") {
        Some(serve) => read_serve(alloc, serve, purpose),
        None => refused(
            alloc,
            "a command is missing: replay, serve, subscribe or publish",
        ),
    }
}

/// What the words after `publish` ask for.
fn read_publishing(alloc: Global, publish: &ArgMatches<'_>) -> Result<Command, CommandRefusal>
    ensures runnable { IfOk result IsRunnable }
    ensures says { IfOk result SaysVersion }
    ensures purpose { (wanted : Purpose) → IfOk result (SuitsPurpose wanted) }
    ensures stats { IfOk result SuitsLog }
{
    let command = read_publish(alloc, publish)?;
    match publish.get_str("file") {
        Some(path) => Ok(Command::PublishFile {
            path: String::from_str(alloc, path)?,
            command,
        }),
        None => Ok(Command::Publish(command)),
    }
}

/// What the words after `replay` ask for.
fn read_replay(alloc: Global, replay: &ArgMatches<'_>) -> Result<Command, CommandRefusal>
    ensures runnable { IfOk result IsRunnable }
    ensures says { IfOk result SaysVersion }
    ensures purpose { (wanted : Purpose) → IfOk result (SuitsPurpose wanted) }
    ensures stats { IfOk result SuitsLog }
{
    let Some(realm) = replay.get_str("realm") else {
        return refused(alloc, "no realm is named");
    };
    let realm = read_realm(alloc, realm, "--realm <REALM>")?;
    Ok(Command::Replay(Config {
        realms: vec![in alloc; realm]?,
        grants: read_grants_in(alloc, replay)?,
        outbox: OUTBOX,
        ids: Ids::Random,
    }))
}

/// What the words after `serve` ask for, which is to be served or checked.
fn read_serve(
    alloc: Global,
    serve: &ArgMatches<'_>,
    purpose: Purpose,
) -> Result<Command, CommandRefusal>
    ensures runnable { IfOk result IsRunnable }
    ensures says { IfOk result SaysVersion }
    ensures purpose { IfOk result (SuitsPurpose purpose) }
    ensures stats { IfOk result SuitsLog }
{
    let port = read_port(alloc, serve)?;
    let host = String::from_str(alloc, serve.get_str("host").unwrap_or(HOST))?;
    let config = Config {
        realms: read_realms(alloc, serve)?,
        grants: read_grants_in(alloc, serve)?,
        outbox: read_outbox(alloc, serve)?,
        ids: read_ids(alloc, serve)?,
    };
    let log = serve.get_flag("log");
    Ok(Command::Serve {
        host,
        port,
        config,
        log,
        stats: read_stats(alloc, serve, log)?,
        bound: read_bound(alloc, serve)?,
        purpose,
    })
}

/// What the words of `serve` ask for. The grammar lets `--no-bind` stand only beside `--check`.
fn purpose_of(words: &[String]) -> Purpose
    ensures { result ≡ purpose_of words.now }
{
    if !has_option(words, "--check") {
        Purpose::Serve
    } else if has_option(words, "--no-bind") {
        Purpose::CheckUnbound
    } else {
        Purpose::Check
    }
}

/// Whether one of the words is this option. Behind `--` stand realms.
fn has_option(words: &[String], option: &str) -> bool
    ensures { result ≡ has_option option.now words.now }
{
    for word in words {
        if word.as_str() == "--" {
            return false;
        }
        if word.as_str() == option {
            return true;
        }
    }
    false
}

/// Why a text is no realm.
const NO_REALM: &str =
    "a realm is a URI: parts joined by dots, none of them empty, without white space and #";

/// A realm of this name, which is a value of this argument.
fn read_realm(alloc: Global, name: &str, argument: &str) -> Result<Topic, CommandRefusal>
    ensures realm { IfOk result (λ realm. realm ≡ name.now) }
    ensures reason { IfErr result (NamesValue name.now argument.now no_realm) }
{
    match Topic::read(alloc, name) {
        Ok(realm) => Ok(realm),
        Err(wamp_ids::Fault::BadUri) => refused_value(alloc, name, argument, NO_REALM),
        Err(_) => Err(CommandRefusal::NoMemory),
    }
}

/// The realms that are named, from 1 to 16, each once.
fn read_realms(alloc: Global, serve: &ArgMatches<'_>) -> Result<Vec<Topic>, CommandRefusal>
    ensures some { IfOk result (λ realms. 1 ≤ length realms.items) }
    ensures most { IfOk result (λ realms. length realms.items ≤ 16) }
    ensures distinct { IfOk result (λ realms. are_distinct realms.items ≡ true) }
{
    let Some(names) = serve.get_strs("realm") else {
        return refused(alloc, "no realm is named");
    };
    let mut realms = Vec::new(alloc);
    for name in names {
        let realm = read_realm(alloc, name, REALMS)?;
        if realms.len() == MOST_REALMS {
            return refused_value(alloc, name, REALMS, "16 realms stand before it");
        }
        if is_among(&realm, &realms) {
            return refused_value(alloc, name, REALMS, "this realm is named twice");
        }
        realms.push(realm)?;
    }
    if realms.is_empty() || realms.len() > MOST_REALMS || !are_distinct(&realms) {
        return refused(alloc, "from 1 to 16 realms can be served");
    }
    Ok(realms)
}

/// Whether no realm stands twice.
fn are_distinct(realms: &[Topic]) -> bool
    ensures { result ≡ are_distinct realms.now }
{
    for i in 0..realms.len() {
        if is_among(&realms[i], &realms[i + 1..]) {
            return false;
        }
    }
    true
}

/// Whether one of the realms has this name.
fn is_among(name: &Topic, realms: &[Topic]) -> bool
    ensures { result ≡ is_among name.now realms.now }
{
    for realm in realms {
        if realm.text() == name.text() {
            return true;
        }
    }
    false
}

/// The grants that are named, or none.
fn read_grants_in(
    alloc: Global,
    matches: &ArgMatches<'_>,
) -> Result<Vec<(String, String)>, CommandRefusal> {
    let Some(text) = matches.get_str("grants") else {
        return Ok(Vec::new(alloc));
    };
    match read_grants(alloc, text) {
        Ok(grants) => Ok(grants),
        Err(Fault::Usage) => Err(CommandRefusal::Usage(wrong_grants(alloc, text)?)),
        Err(_) => Err(CommandRefusal::NoMemory),
    }
}

/// The port, which has to be named.
fn read_port(alloc: Global, serve: &ArgMatches<'_>) -> Result<u16, CommandRefusal>
    ensures { IfOk result (λ port. 1 ≤ port) }
{
    match serve.get_one::<u16>("port") {
        Some(port) if port > 0 => Ok(port),
        _ => {
            let text = serve.get_str("port").unwrap_or("");
            refused_value(
                alloc,
                text,
                "--port <PORT>",
                "a number from 1 to 65535 is wanted",
            )
        }
    }
}

/// How many items an outbox has room for.
fn read_outbox(alloc: Global, serve: &ArgMatches<'_>) -> Result<usize, CommandRefusal>
    ensures { IfOk result (λ outbox. (1 ≤ outbox) × (outbox ≤ 65536)) }
{
    let Some(text) = serve.get_str("outbox") else {
        return Ok(OUTBOX);
    };
    match text.parse::<usize>() {
        Ok(outbox) if 1 <= outbox && outbox <= MOST_OUTBOX => Ok(outbox),
        _ => refused_value(
            alloc,
            text,
            "--outbox <ITEMS>",
            "a number from 1 to 65536 is wanted",
        ),
    }
}

/// How often the log, which has to be asked for then, tells of each realm, in seconds, if it does.
fn read_stats(
    alloc: Global,
    serve: &ArgMatches<'_>,
    log: bool,
) -> Result<Option<u32>, CommandRefusal>
    ensures { IfOk result (IsInterval log) }
{
    let Some(text) = serve.get_str("stats") else {
        return Ok(None);
    };
    if !log {
        return refused(alloc, "--stats needs --log");
    }
    match text.parse::<u32>() {
        Ok(seconds) if 1 <= seconds && seconds <= LONGEST_INTERVAL => Ok(Some(seconds)),
        _ => refused_value(
            alloc,
            text,
            "--stats <SECONDS>",
            "a number from 1 to 86400 is wanted",
        ),
    }
}

/// How long the messages of clients may be, in octets.
fn read_bound(alloc: Global, serve: &ArgMatches<'_>) -> Result<MessageBound, CommandRefusal> {
    let Some(text) = serve.get_str("longest-message") else {
        return Ok(MessageBound::largest());
    };
    match bound_of(text) {
        Some(bound) => Ok(bound),
        None => refused_value(
            alloc,
            text,
            "--longest-message <OCTETS>",
            "a power of two from 512 to 1048576 is wanted",
        ),
    }
}

/// The bound of so many octets, in decimal.
fn bound_of(text: &str) -> Option<MessageBound> {
    match text.parse::<u32>() {
        Ok(octets) => MessageBound::of_octets(octets),
        Err(_) => None,
    }
}

/// Where the words come from.
fn read_ids(alloc: Global, serve: &ArgMatches<'_>) -> Result<Ids, CommandRefusal> {
    match serve.get_str("ids") {
        None => Ok(Ids::Random),
        Some("random") => Ok(Ids::Random),
        Some("count") => Ok(Ids::Count),
        Some(text) => refused_value(alloc, text, "--ids <SOURCE>", "random or count is wanted"),
    }
}
