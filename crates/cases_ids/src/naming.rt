//! Ids, connections and topics.
use case_text::{line_of, number_of, part_of, spelled, text_of};
use std::alloc::Global;
use std::io;
use wamp_ids::{Conn, Fault, Id, Topic, seat};

/// The id of this number.
pub fn id(alloc: Global, text: &str) -> io::Result<String> {
    match Id::new(number_of(text)) {
        Ok(id) => value(alloc, id),
        Err(fault) => fault_line(alloc, fault),
    }
}

/// The id that is drawn by this word.
pub fn word(alloc: Global, text: &str) -> io::Result<String> {
    value(alloc, Id::of_word(number_of(text)))
}

fn value(alloc: Global, id: Id) -> io::Result<String> {
    let number = id.value();
    Ok(format!(in alloc; "id {number}\n")?)
}

/// A fault as it is printed.
pub fn fault_line(alloc: Global, fault: Fault) -> io::Result<String> {
    Ok(format!(in alloc; "{fault}\n")?)
}

/// The connection of this number, and its seat.
pub fn conn(alloc: Global, text: &str) -> io::Result<String> {
    match Conn::new(number_of(text)) {
        None => line_of(alloc, "no connection"),
        Some(conn) => {
            let number = conn.value();
            let place = seat(conn);
            Ok(format!(in alloc; "connection {number}, seat {place}\n")?)
        }
    }
}

/// The topic of this text.
pub fn topic(alloc: Global, text: &str) -> io::Result<String> {
    let text = text_of(alloc, part_of(text))?;
    match Topic::read(alloc, text.as_str()) {
        Ok(topic) => copied(alloc, &topic),
        Err(fault) => fault_line(alloc, fault),
    }
}

/// The topic that this text is, which is moved.
pub fn moved(alloc: Global, text: &str) -> io::Result<String> {
    let text = text_of(alloc, part_of(text))?;
    match Topic::from_string(text) {
        Ok(topic) => copied(alloc, &topic),
        Err(fault) => fault_line(alloc, fault),
    }
}

/// A topic in words, by a copy of it.
fn copied(alloc: Global, topic: &Topic) -> io::Result<String> {
    let copy = topic.try_copy(alloc)?;
    if copy != *topic {
        return line_of(alloc, "the copy differs");
    }
    let text = spelled(alloc, copy.text().as_bytes())?;
    let reserved = if topic.is_reserved() {
        ", reserved"
    } else {
        ""
    };
    Ok(format!(in alloc; "topic {text}{reserved}\n")?)
}

/// Each fault as it is printed.
pub fn faults(alloc: Global) -> io::Result<String> {
    let mut text = String::new(alloc);
    for fault in [Fault::NoMemory, Fault::BadId, Fault::BadUri] {
        writeln!(&mut text, "{fault}")?;
    }
    for fault in [eligibility::Fault::NoMemory, eligibility::Fault::Shape] {
        writeln!(&mut text, "{fault}")?;
    }
    Ok(text)
}
