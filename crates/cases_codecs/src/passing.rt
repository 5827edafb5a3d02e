//! What is read of octets with no memory: values that are passed over, and tokens.
use crate::describing::{marked_octets, quote};
use case_text::{number_of, octets_of, part};
use msgpack_codec::{Carriage, Passed, Token, first_token, pass};
use std::alloc::Global;
use std::io;

/// What `ROOM OCTETS` gives: whether the value is carried, whether it has its shortest spelling, and
/// the octets after it; or why none is passed over.
pub fn passing(alloc: Global, text: &str) -> io::Result<String> {
    let (room, text) = part(text);
    let octets = octets_of(alloc, text)?;
    match pass(&octets, room_of(room)) {
        Ok(passed) => told(alloc, passed),
        Err(refusal) => Ok(format!(in alloc; "{refusal}\n")?),
    }
}

/// The room of this number; the most where it is greater.
fn room_of(number: &str) -> u8 {
    u8::try_from(number_of(number)).unwrap_or(u8::MAX)
}

fn carriage_of(carriage: Carriage) -> &'static str {
    match carriage {
        Carriage::Carried => "carried",
        Carriage::Unsure => "unsure",
        Carriage::Uncarried => "uncarried",
    }
}

fn spelling_of(is_shortest: bool) -> &'static str {
    if is_shortest { "shortest" } else { "other" }
}

fn told(alloc: Global, passed: Passed) -> io::Result<String> {
    let carriage = carriage_of(passed.carriage);
    let spelling = spelling_of(passed.is_shortest);
    let mut text = format!(in alloc; "{carriage} {spelling} ")?;
    quote(&mut text, passed.rest)?;
    text.push('\n')?;
    Ok(text)
}

/// The token at the front of octets, and the octets after it; or why there is none.
pub fn token(alloc: Global, octets: &[u8]) -> io::Result<String> {
    match first_token(octets) {
        Ok((token, rest)) => {
            let mut text = String::new(alloc);
            describe_token(&mut text, token)?;
            text.push(' ')?;
            quote(&mut text, rest)?;
            text.push('\n')?;
            Ok(text)
        }
        Err(fault) => Ok(format!(in alloc; "{fault}\n")?),
    }
}

fn describe_token(out: &mut String, token: Token) -> io::Result<()> {
    match token {
        Token::Null => out.push_str("null")?,
        Token::Flag(flag) => out.push_str(if flag { "true" } else { "false" })?,
        Token::Whole(number) => write!(out, "{number}")?,
        Token::Text(text) => quote(out, text.as_bytes())?,
        Token::Bytes(octets) => marked_octets(out, octets)?,
        Token::List(count) => write!(out, "list {count}")?,
        Token::Dict(count) => write!(out, "dict {count}")?,
        Token::Uncarried => out.push('?')?,
    }
    Ok(())
}
