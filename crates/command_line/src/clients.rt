//! What the words behind `subscribe` and `publish` ask for.
ghost use Rattle.std.specs.Prelude.{◌≤◌, IfErr, IfOk, IfSome, MatchOption, length, ⊤};
ghost use Rattle.command_line.specs.Commands.{IsReachable};
ghost use Rattle.command_line.specs.Reasons.{NamesValue, no_session};
ghost use Rattle.command_line.specs.Sessions.{Spells, SpellsNoId};

use crate::refusal::{CommandRefusal, refused, refused_value};
use clap::ArgMatches;
use client_commands::{
    Arguments, Contact, LineForm, PublishCommand, PublishWishes, Serializer, SessionLists,
    SubscribeCommand, SubscribeWishes, value_of,
};
use message_tree::{Content, Text, Tree};
use std::alloc::{AllocError, Global};
use wamp_ids::{Id, Policy};

/// The host of the broker, unless another one is named.
const HOST: &str = "127.0.0.1";

/// The port of the broker, unless another one is named.
const PORT: u16 = 9000;

/// How many seconds an answer may take, unless it is said.
const TIMEOUT: u32 = 10;

/// The longest time that it may take: a day.
const LONGEST_TIMEOUT: u32 = 86400;

/// The word that stands for the lines of standard input.
const LINES: &str = "-";

/// How deep what is published may nest: a message has room for it then.
const DEEPEST: usize = 98;

/// Why something can't be published.
const NOT_CARRIED: &str =
    "a number has to be whole: send it as a text, '\"21.5\"', or as a whole number in a smaller unit; lists and dictionaries may stand in each other 98 deep";

/// Why a text is no session.
const NO_SESSION: &str = "the id of a session is wanted, a whole number from 1 to 9007199254740992";

/// Why a text is no port.
const NO_PORT: &str = "a number from 1 to 65535 is wanted";

/// Why there is none behind a host.
const NO_PORT_BEHIND: &str = "a number from 1 to 65535 is wanted behind the colon";

/// What the words behind `subscribe` ask for.
pub fn read_subscribe(
    alloc: Global,
    words: &ArgMatches<'_>,
) -> Result<SubscribeCommand, CommandRefusal>
    ensures reachable { IfOk result (λ c. IsReachable c.contact) }
    ensures topics { IfOk result (λ c. 1 ≤ length c.topics.items) }
    ensures count { IfOk result (λ c. MatchOption c.count ⊤ (λ n. 1 ≤ n)) }
{
    let contact = read_contact(alloc, words)?;
    let wishes = SubscribeWishes {
        policy: read_policy(alloc, words)?,
        get_retained: words.get_flag("get-retained"),
    };
    let count = read_count(alloc, words)?;
    let topics = read_topics(alloc, words)?;
    Ok(SubscribeCommand {
        contact,
        wishes,
        count,
        form: form_of(words),
        reconnect: words.get_flag("reconnect"),
        topics,
    })
}

/// How events are printed.
fn form_of(words: &ArgMatches<'_>) -> LineForm {
    if words.get_flag("plain") {
        LineForm::Plain
    } else {
        LineForm::Json
    }
}

/// What the words behind `publish` ask for.
pub fn read_publish(alloc: Global, words: &ArgMatches<'_>) -> Result<PublishCommand, CommandRefusal>
    ensures { IfOk result (λ c. IsReachable c.contact) }
{
    let contact = read_contact(alloc, words)?;
    let wishes = read_wishes(alloc, words)?;
    let Some(topic) = words.get_str("topic") else {
        return refused(alloc, "no topic is named");
    };
    let topic = Text::of(alloc, topic)?;
    let arguments = read_arguments(alloc, words)?;
    let kwargs = read_kwargs(alloc, words)?;
    Ok(PublishCommand {
        contact,
        wishes,
        topic,
        arguments,
        kwargs,
    })
}

/// Where the broker is, and how it is spoken to.
fn read_contact(alloc: Global, words: &ArgMatches<'_>) -> Result<Contact, CommandRefusal>
    ensures { IfOk result IsReachable }
{
    let (host, port) = read_place(alloc, words)?;
    let Some(realm) = words.get_str("realm") else {
        return refused(alloc, "no realm is named");
    };
    Ok(Contact {
        host: String::from_str(alloc, host)?,
        port,
        serializer: serializer_of(words),
        realm: Text::of(alloc, realm)?,
        authid: read_authid(alloc, words)?,
        timeout: read_timeout(alloc, words)?,
    })
}

/// How many seconds an answer may take.
fn read_timeout(alloc: Global, words: &ArgMatches<'_>) -> Result<u32, CommandRefusal>
    ensures { IfOk result (λ seconds. 1 ≤ seconds) }
{
    let Some(text) = words.get_str("timeout") else {
        return Ok(TIMEOUT);
    };
    match text.parse::<u32>() {
        Ok(seconds) if 1 <= seconds && seconds <= LONGEST_TIMEOUT => Ok(seconds),
        _ => refused_value(
            alloc,
            text,
            "--timeout <SECONDS>",
            "a number from 1 to 86400 is wanted",
        ),
    }
}

/// How messages are serialized.
fn serializer_of(words: &ArgMatches<'_>) -> Serializer {
    if words.get_flag("json") {
        Serializer::Json
    } else {
        Serializer::MsgPack
    }
}

/// The host and the port that are connected to. The port may stand behind the host and a colon.
fn read_place<'a>(
    alloc: Global,
    words: &'a ArgMatches<'_>,
) -> Result<(&'a str, u16), CommandRefusal>
    ensures { IfOk result (λ place. 1 ≤ place.1) }
{
    let host = words.get_str("host").unwrap_or(HOST);
    match (split_place(host), words.get_str("port")) {
        (None, None) => Ok((host, PORT)),
        (None, Some(text)) => match port_of(text) {
            Some(port) => Ok((host, port)),
            None => refused_value(alloc, text, "--port <PORT>", NO_PORT),
        },
        (Some((name, text)), None) => match port_of(text) {
            Some(port) => Ok((name, port)),
            None => refused_value(alloc, host, "--host <HOST>", NO_PORT_BEHIND),
        },
        (Some(_), Some(text)) => {
            refused_value(
                alloc,
                text,
                "--port <PORT>",
                "a port stands behind the host as well",
            )
        }
    }
}

/// A host and what stands behind its colon, if there is one: `HOST:PORT`, or `[HOST]:PORT` of an address that has
/// colons itself.
fn split_place(place: &str) -> Option<(&str, &str)> {
    if let Some(inner) = place.strip_prefix("[") {
        return inner.split_once("]:");
    }
    match place.split_once(':') {
        Some((host, port)) if !port.contains(':') => Some((host, port)),
        _ => None,
    }
}

/// The port that a text names.
fn port_of(text: &str) -> Option<u16>
    ensures { IfSome result (λ port. 1 ≤ port) }
{
    match text.parse::<u16>() {
        Ok(port) if port > 0 => Some(port),
        _ => None,
    }
}

/// The authid that is asked for, if one is.
fn read_authid(alloc: Global, words: &ArgMatches<'_>) -> Result<Option<Text>, AllocError> {
    match words.get_str("authid") {
        Some(authid) => Ok(Some(Text::of(alloc, authid)?)),
        None => Ok(None),
    }
}

/// How topics are compared.
fn read_policy(alloc: Global, words: &ArgMatches<'_>) -> Result<Policy, CommandRefusal> {
    match words.get_str("match") {
        None => Ok(Policy::Exact),
        Some("exact") => Ok(Policy::Exact),
        Some("prefix") => Ok(Policy::Prefix),
        Some("wildcard") => Ok(Policy::Wildcard),
        Some(text) => refused_value(
            alloc,
            text,
            "--match <POLICY>",
            "exact, prefix or wildcard is wanted",
        ),
    }
}

/// After how many events it ends, if that is said.
fn read_count(alloc: Global, words: &ArgMatches<'_>) -> Result<Option<u64>, CommandRefusal>
    ensures { IfOk result (λ count. MatchOption count ⊤ (λ n. 1 ≤ n)) }
{
    let Some(text) = words.get_str("count") else {
        return Ok(None);
    };
    match text.parse::<u64>() {
        Ok(count) if count > 0 => Ok(Some(count)),
        _ => refused_value(
            alloc,
            text,
            "--count <N>",
            "a number from 1 to 18446744073709551615 is wanted",
        ),
    }
}

/// The topics, at least one.
fn read_topics(alloc: Global, words: &ArgMatches<'_>) -> Result<Vec<Text>, CommandRefusal>
    ensures { IfOk result (λ topics. 1 ≤ length topics.items) }
{
    let topics = read_texts(alloc, words, "topic")?;
    if topics.is_empty() {
        return refused(alloc, "no topic is named");
    }
    Ok(topics)
}

/// The texts that are given for an argument.
fn read_texts(alloc: Global, words: &ArgMatches<'_>, name: &str) -> Result<Vec<Text>, AllocError> {
    let mut texts = Vec::new(alloc);
    if let Some(values) = words.get_strs(name) {
        for value in values {
            texts.push(Text::of(alloc, value)?)?;
        }
    }
    Ok(texts)
}

/// What each publication wishes.
fn read_wishes(alloc: Global, words: &ArgMatches<'_>) -> Result<PublishWishes, CommandRefusal> {
    Ok(PublishWishes {
        acknowledge: !words.get_flag("no-acknowledge"),
        disclose_me: words.get_flag("disclose-me"),
        eligible: SessionLists {
            ids: read_sessions_if_any(alloc, words, "eligible", "--eligible <SESSION>")?,
            authids: read_texts_if_any(alloc, words, "eligible-authid")?,
            authroles: read_texts_if_any(alloc, words, "eligible-authrole")?,
        },
        exclude: SessionLists {
            ids: read_sessions_if_any(alloc, words, "exclude", "--exclude <SESSION>")?,
            authids: read_texts_if_any(alloc, words, "exclude-authid")?,
            authroles: read_texts_if_any(alloc, words, "exclude-authrole")?,
        },
        exclude_me: read_exclude_me(alloc, words)?,
        retain: words.get_flag("retain"),
    })
}

/// Whether a publisher is left out.
fn read_exclude_me(alloc: Global, words: &ArgMatches<'_>) -> Result<bool, CommandRefusal> {
    match words.get_str("exclude-me") {
        None => Ok(true),
        Some("true") => Ok(true),
        Some("false") => Ok(false),
        Some(text) => refused_value(
            alloc,
            text,
            "--exclude-me <WHETHER>",
            "true or false is wanted",
        ),
    }
}

/// The ids of sessions that are given for an option, if it is given.
fn read_sessions_if_any(
    alloc: Global,
    words: &ArgMatches<'_>,
    name: &str,
    argument: &str,
) -> Result<Option<Vec<Id>>, CommandRefusal> {
    let Some(texts) = words.get_strs(name) else {
        return Ok(None);
    };
    let mut ids = Vec::new(alloc);
    for text in texts {
        ids.push(read_session(alloc, text, argument)?)?;
    }
    Ok(Some(ids))
}

/// The id of a session that a text names.
fn read_session(alloc: Global, text: &str, argument: &str) -> Result<Id, CommandRefusal>
    ensures id { IfOk result (Spells text.now) }
    ensures reason { IfErr result (NamesValue text.now argument.now no_session) }
{
    match session_of(text) {
        Some(id) => Ok(id),
        None => refused_value(alloc, text, argument, NO_SESSION),
    }
}

/// The id that a text spells in decimal, if it does.
fn session_of(text: &str) -> Option<Id>
    ensures { MatchOption result (SpellsNoId text.now) (Spells text.now) }
{
    match text.parse::<u64>() {
        Ok(number) => match Id::new(number) {
            Ok(id) => Some(id),
            Err(_) => None,
        },
        Err(_) => None,
    }
}

/// The texts that are given for an argument, if it is given.
fn read_texts_if_any(
    alloc: Global,
    words: &ArgMatches<'_>,
    name: &str,
) -> Result<Option<Vec<Text>>, AllocError> {
    let texts = read_texts(alloc, words, name)?;
    if texts.is_empty() {
        Ok(None)
    } else {
        Ok(Some(texts))
    }
}

/// What is published: the words, or each line of standard input.
fn read_arguments(alloc: Global, words: &ArgMatches<'_>) -> Result<Arguments, CommandRefusal> {
    let mut values = Vec::new(alloc);
    if let Some(texts) = words.get_strs("argument") {
        if texts.len() == 1 && texts[0] == LINES {
            return Ok(Arguments::Lines);
        }
        for text in texts {
            values.push(read_value(alloc, text, "[JSON]...")?)?;
        }
    }
    Ok(Arguments::Words(Content::of(Tree::List(values))))
}

/// A word as a value that can be published.
fn read_value(alloc: Global, text: &str, argument: &str) -> Result<Tree, CommandRefusal> {
    let content = Content::of(value_of(alloc, text)?);
    if !content.is_carried() || content.depth() > DEEPEST {
        return refused_value(alloc, text, argument, NOT_CARRIED);
    }
    Ok(content.into_tree())
}

/// What is published by keys, if anything is.
fn read_kwargs(alloc: Global, words: &ArgMatches<'_>) -> Result<Option<Content>, CommandRefusal> {
    let Some(text) = words.get_str("kwargs") else {
        return Ok(None);
    };
    match read_value(alloc, text, "--kwargs <JSON>")? {
        Tree::Dict(dict) => Ok(Some(Content::of(Tree::Dict(dict)))),
        _ => refused_value(
            alloc,
            text,
            "--kwargs <JSON>",
            "a dictionary in JSON is wanted",
        ),
    }
}
