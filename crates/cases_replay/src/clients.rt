//! What the command lines of the clients ask for.
use client_commands::{
    Arguments, Contact, LineForm, PublishCommand, PublishWishes, Serializer, SubscribeCommand,
    SubscribeWishes,
};
use message_tree::{Content, Message, Text};
use std::alloc::{AllocError, Global};
use std::io;
use wamp_ids::{Id, Policy};

/// What `subscribe` is told.
pub fn subscribe_line(alloc: Global, command: &SubscribeCommand) -> io::Result<String> {
    let mut line = contact_line(alloc, "subscribe", &command.contact)?;
    put_wishes(&mut line, command.wishes)?;
    if let Some(count) = command.count {
        line.push_str(format!(in alloc; " count {count}")?.as_str())?;
    }
    if command.form == LineForm::Plain {
        line.push_str(" plain")?;
    }
    if command.reconnect {
        line.push_str(" reconnect")?;
    }
    put_session(&mut line, &command.contact)?;
    for topic in &command.topics {
        put_word(&mut line, topic)?;
    }
    line.push('\n')?;
    Ok(line)
}

/// What `publish` is told.
pub fn publish_line(alloc: Global, command: &PublishCommand) -> io::Result<String> {
    let mut line = contact_line(alloc, "publish", &command.contact)?;
    put_publish_wishes(alloc, &mut line, &command.wishes)?;
    put_session(&mut line, &command.contact)?;
    put_word(&mut line, &command.topic)?;
    match &command.arguments {
        Arguments::Lines => line.push_str(" lines")?,
        Arguments::Words(words) => put_content(alloc, &mut line, words)?,
    }
    if let Some(kwargs) = &command.kwargs {
        put_content(alloc, &mut line, kwargs)?;
    }
    line.push('\n')?;
    Ok(line)
}

/// A line that begins with the broker, and the time for its answers unless that is 10 seconds.
fn contact_line(alloc: Global, name: &str, contact: &Contact) -> io::Result<String> {
    let serializer = match contact.serializer {
        Serializer::Json => "json",
        Serializer::MsgPack => "msgpack",
    };
    let host = contact.host.as_str();
    let port = contact.port;
    let mut line = format!(in alloc; "{name} {host} {port} {serializer}")?;
    if contact.timeout != 10 {
        let timeout = contact.timeout;
        line.push_str(format!(in alloc; " within {timeout}")?.as_str())?;
    }
    Ok(line)
}

/// The authid, if one is asked for, and the realm.
fn put_session(line: &mut String, contact: &Contact) -> Result<(), AllocError> {
    if let Some(authid) = &contact.authid {
        line.push_str(" authid")?;
        put_word(line, authid)?;
    }
    put_word(line, &contact.realm)
}

/// What a SUBSCRIBE wishes.
fn put_wishes(line: &mut String, wishes: SubscribeWishes) -> Result<(), AllocError> {
    line.push_str(match wishes.policy {
        Policy::Exact => " exact",
        Policy::Prefix => " prefix",
        Policy::Wildcard => " wildcard",
    })?;
    if wishes.get_retained {
        line.push_str(" get-retained")?;
    }
    Ok(())
}

/// What a PUBLISH wishes.
fn put_publish_wishes(
    alloc: Global,
    line: &mut String,
    wishes: &PublishWishes,
) -> Result<(), AllocError> {
    if wishes.acknowledge {
        line.push_str(" acknowledge")?;
    }
    if wishes.retain {
        line.push_str(" retain")?;
    }
    if wishes.disclose_me {
        line.push_str(" disclosed")?;
    }
    if !wishes.exclude_me {
        line.push_str(" with-me")?;
    }
    put_ids(alloc, line, " only", &wishes.eligible.ids)?;
    put_texts(line, " to", &wishes.eligible.authids)?;
    put_texts(line, " for", &wishes.eligible.authroles)?;
    put_ids(alloc, line, " without", &wishes.exclude.ids)?;
    put_texts(line, " not-to", &wishes.exclude.authids)?;
    put_texts(line, " not-for", &wishes.exclude.authroles)
}

/// Each of these ids, if there are any, behind a word.
fn put_ids(
    alloc: Global,
    line: &mut String,
    word: &str,
    ids: &Option<Vec<Id>>,
) -> Result<(), AllocError> {
    if let Some(ids) = ids {
        for id in ids {
            let number = id.value();
            line.push_str(format!(in alloc; "{word} {number}")?.as_str())?;
        }
    }
    Ok(())
}

/// Each of these texts, if there are any, behind a word.
fn put_texts(line: &mut String, word: &str, texts: &Option<Vec<Text>>) -> Result<(), AllocError> {
    if let Some(texts) = texts {
        for text in texts {
            line.push_str(word)?;
            put_word(line, text)?;
        }
    }
    Ok(())
}

fn put_word(line: &mut String, word: &Text) -> Result<(), AllocError> {
    line.push(' ')?;
    line.push_str(word.as_str())
}

/// A value in JSON; nothing where it has no spelling.
fn put_content(alloc: Global, line: &mut String, content: &Content) -> Result<(), AllocError> {
    let Ok(copy) = content.try_copy(alloc) else {
        return Err(AllocError);
    };
    let Ok(message) = Message::of(copy.into_tree()) else {
        return Ok(());
    };
    match json_codec::encode(alloc, &message) {
        Ok(octets) => {
            line.push(' ')?;
            line.push_str(std::str::from_utf8(&octets).unwrap_or(""))
        }
        Err(json_codec::Fault::NoMemory) => Err(AllocError),
        Err(_) => Ok(()),
    }
}
