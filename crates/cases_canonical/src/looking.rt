//! What is seen of a message in its octets, in words: null, true, 5, "text", x0aff, [1,2], {"a":1}; what no tree carries by the levels
//! that it may nest and its octets, as ?99:ca00000000. A value that doesn't begin as what it is has a `!` before it.
use case_text::{hexadecimal, line_of, octets_of, part, part_of, spell, text_of};
use msgpack_cursor::{Beginning, Dictionary, Elements, Seen, Value, message};
use std::alloc::Global;
use std::io;

/// The keys that a dictionary is asked for, in this order: those that tests/expect_canonical draws.
const KEYS: [&str; 8] = [
    "",
    "a",
    "b",
    "ab",
    "z",
    "grüße",
    "日本",
    "kkkkkkkkkkkkkkkkkkkkkkkkkkkkkkkk",
];

/// How many values stand inside one another in a message.
pub const ROOM: u8 = 101;

/// What the octets of a message are.
pub fn look(alloc: Global, octets: &[u8]) -> io::Result<String> {
    match message(octets) {
        Ok(value) => {
            let mut told = String::new(alloc);
            tell(&mut told, &value, ROOM)?;
            told.push('\n')?;
            Ok(told)
        }
        Err(refusal) => Ok(format!(in alloc; "{refusal}\n")?),
    }
}

/// What `KEY OCTETS` gives.
pub fn get(alloc: Global, text: &str) -> io::Result<String> {
    let (key, octets) = part(text);
    let key = text_of(alloc, part_of(key))?;
    let octets = octets_of(alloc, octets)?;
    match message(&octets) {
        Ok(value) => match value.seen() {
            Seen::Dict(dictionary) => found(alloc, dictionary.get(key.as_str())),
            _ => line_of(alloc, "no dictionary"),
        },
        Err(refusal) => Ok(format!(in alloc; "{refusal}\n")?),
    }
}

/// A value that was found: what it is, how many levels it may nest, whether its octets are the shortest, and they themselves.
fn found(alloc: Global, value: Option<Value>) -> io::Result<String> {
    let Some(value) = value else {
        return line_of(alloc, "none");
    };
    let mut told = String::new(alloc);
    tell(&mut told, &value, ROOM)?;
    let spelling = value.spelling();
    let room = spelling.room;
    let length = if spelling.is_shortest {
        "shortest"
    } else {
        "other"
    };
    write!(&mut told, " {room} {length} ")?;
    spell(&mut told, spelling.octets)?;
    told.push('\n')?;
    Ok(told)
}

/// Whether a value that begins so can be what is seen of it.
fn begins_as(beginning: Beginning, seen: &Seen) -> bool {
    match seen {
        Seen::Null => beginning == Beginning::Null,
        Seen::Flag(_) | Seen::Whole(_) | Seen::Text(_) | Seen::Bytes(_) => {
            beginning == Beginning::Leaf
        }
        Seen::List(_) => beginning == Beginning::List,
        Seen::Dict(_) => beginning == Beginning::Map,
        Seen::Uncarried => beginning == Beginning::Uncarried || beginning == Beginning::Map,
    }
}

/// Adds a value, and so many values inside one another.
#[cycle(telling)]
pub fn tell(out: &mut String, value: &Value, room: u8) -> io::Result<()> {
    if room == 0 {
        out.push_str("..")?;
        return Ok(());
    }
    let seen = value.seen();
    if !begins_as(value.beginning(), &seen) {
        out.push('!')?;
    }
    match seen {
        Seen::Null => out.push_str("null")?,
        Seen::Flag(flag) => out.push_str(if flag { "true" } else { "false" })?,
        Seen::Whole(number) => write!(out, "{number}")?,
        Seen::Text(text) => quote(out, text)?,
        Seen::Bytes(octets) => {
            out.push('x')?;
            hexadecimal(out, octets)?;
        }
        Seen::List(elements) => tell_elements(out, elements, room - 1)?,
        Seen::Dict(dictionary) => tell_dictionary(out, &dictionary, room - 1)?,
        Seen::Uncarried => {
            let spelling = value.spelling();
            let room = spelling.room;
            write!(out, "?{room}:")?;
            hexadecimal(out, spelling.octets)?;
        }
    }
    Ok(())
}

/// Adds the elements of a list.
#[cycle(telling)]
fn tell_elements(out: &mut String, elements: Elements, room: u8) -> io::Result<()> {
    let mut elements = elements;
    let mut is_first = true;
    out.push('[')?;
    while let Some(value) = elements.next() {
        separate(out, is_first)?;
        tell(out, &value, room)?;
        is_first = false;
    }
    out.push(']')?;
    Ok(())
}

/// Adds what a dictionary has at these keys; `..` where it has none of them, but others.
#[cycle(telling)]
fn tell_dictionary(out: &mut String, dictionary: &Dictionary, room: u8) -> io::Result<()> {
    let mut is_first = true;
    out.push('{')?;
    for key in KEYS {
        if let Some(value) = dictionary.get(key) {
            separate(out, is_first)?;
            quote(out, key)?;
            out.push(':')?;
            tell(out, &value, room)?;
            is_first = false;
        }
    }
    if is_first && !dictionary.is_empty() {
        out.push_str("..")?;
    }
    out.push('}')?;
    Ok(())
}

/// Adds what stands between two of a row.
pub fn separate(out: &mut String, is_first: bool) -> io::Result<()> {
    if !is_first {
        out.push(',')?;
    }
    Ok(())
}

/// Adds a text between quotation marks.
pub fn quote(out: &mut String, text: &str) -> io::Result<()> {
    out.push('"')?;
    spell(out, text.as_bytes())?;
    out.push('"')?;
    Ok(())
}
