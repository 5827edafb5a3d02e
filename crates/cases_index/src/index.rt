//! Who holds which patterns, under which numbers.
use crate::reading::{holding_of, name_of, pattern_of, topic_of};
use case_text::{line_of, number_of, spell};
use std::alloc::Global;
use std::io;
use subscription_index::{Fault, Index, Receiver, Receivers};
use wamp_ids::{Conn, Id, Pattern, Topic};

fn fault_line(alloc: Global, fault: Fault) -> io::Result<String> {
    Ok(format!(in alloc; "{fault}\n")?)
}

/// The number that a connection gets by the words `CONN POLICY TEXT`.
pub fn hold(alloc: Global, index: &mut Index, words: &str) -> io::Result<String> {
    let Some((conn, pattern)) = words.split_once(' ') else {
        return line_of(alloc, "no pattern");
    };
    let Some(conn) = Conn::new(number_of(conn)) else {
        return line_of(alloc, "no connection");
    };
    match pattern_of(alloc, pattern)? {
        Ok(pattern) => held(alloc, index, conn, pattern),
        Err(fault) => Ok(format!(in alloc; "{fault}\n")?),
    }
}

fn held(alloc: Global, index: &mut Index, conn: Conn, pattern: Pattern) -> io::Result<String> {
    match index.hold(alloc, conn, pattern) {
        Ok(number) => {
            let number = number.value();
            Ok(format!(in alloc; "{number}\n")?)
        }
        Err(fault) => fault_line(alloc, fault),
    }
}

/// Whether what the words `CONN NUMBER` name was held.
pub fn release(alloc: Global, index: &mut Index, words: &str) -> io::Result<String> {
    match holding_of(words) {
        None => line_of(alloc, "no number"),
        Some((conn, number)) => {
            let was_held = index.release(conn, number);
            Ok(format!(in alloc; "{was_held}\n")?)
        }
    }
}

/// Ends all that a connection holds.
pub fn drop_all(alloc: Global, index: &mut Index, conn: &str) -> io::Result<String> {
    match Conn::new(number_of(conn)) {
        None => line_of(alloc, "no connection"),
        Some(conn) => {
            index.drop_all(conn);
            Ok(String::new(alloc))
        }
    }
}

/// Who holds a pattern that matches the topic of this text.
pub fn matching(alloc: Global, index: &Index, text: &str) -> io::Result<String> {
    match topic_of(alloc, text)? {
        Ok(topic) => found(alloc, index, &topic),
        Err(fault) => Ok(format!(in alloc; "{fault}\n")?),
    }
}

fn found(alloc: Global, index: &Index, topic: &Topic) -> io::Result<String> {
    match index.matching(alloc, topic) {
        Ok(pairs) => pairs_in_words(alloc, pairs.as_slice()),
        Err(fault) => fault_line(alloc, fault),
    }
}

fn pairs_in_words(alloc: Global, pairs: &[(Conn, Id)]) -> io::Result<String> {
    let mut text = String::from_str(alloc, "matches")?;
    for (conn, number) in pairs {
        let conn = conn.value();
        let number = number.value();
        write!(&mut text, " {conn}:{number}")?;
    }
    text.push('\n')?;
    Ok(text)
}

/// Who receives what is published to the topic of this text.
pub fn receivers(alloc: Global, index: &Index, text: &str) -> io::Result<String> {
    match topic_of(alloc, text)? {
        Ok(topic) => received(alloc, index, &topic),
        Err(fault) => Ok(format!(in alloc; "{fault}\n")?),
    }
}

fn received(alloc: Global, index: &Index, topic: &Topic) -> io::Result<String> {
    match index.receivers(alloc, topic) {
        Ok(receivers) => receivers_in_words(alloc, &receivers),
        Err(fault) => fault_line(alloc, fault),
    }
}

fn receivers_in_words(alloc: Global, receivers: &Receivers<'_>) -> io::Result<String> {
    let mut text = String::from_str(alloc, "receives")?;
    for place in 0..receivers.len() {
        add_receiver(&mut text, receivers.at(place))?;
    }
    text.push('\n')?;
    Ok(text)
}

fn add_receiver(text: &mut String, receiver: Receiver) -> io::Result<()> {
    let conn = receiver.conn.value();
    let number = receiver.number.value();
    let topic = if receiver.names_topic { "+topic" } else { "" };
    write!(text, " {conn}:{number}{topic}")?;
    Ok(())
}

/// The pattern that the words `CONN NUMBER` name.
pub fn pattern(alloc: Global, index: &Index, words: &str) -> io::Result<String> {
    match holding_of(words) {
        None => line_of(alloc, "no number"),
        Some((conn, number)) => match index.pattern_of(conn, number) {
            None => line_of(alloc, "no pattern"),
            Some(pattern) => pattern_in_words(alloc, pattern),
        },
    }
}

fn pattern_in_words(alloc: Global, pattern: &Pattern) -> io::Result<String> {
    let policy = name_of(pattern.policy());
    let mut text = format!(in alloc; "{policy} ")?;
    spell(&mut text, pattern.text().as_bytes())?;
    text.push('\n')?;
    Ok(text)
}
