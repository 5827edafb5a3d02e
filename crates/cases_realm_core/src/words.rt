//! The words of a line.
use case_text::part;
use wamp_ids::Conn;

pub fn number(text: &str) -> Option<u64> {
    text.parse::<u64>().ok()
}

pub fn conn(text: &str) -> Option<Conn> {
    match number(text) {
        Some(number) => Conn::new(number),
        None => None,
    }
}

/// A connection and a word, and what is behind them.
pub fn conn_and_word(text: &str) -> Option<(Conn, u64, &str)> {
    let (first, rest) = part(text);
    let (second, rest) = part(rest);
    match (conn(first), number(second)) {
        (Some(conn), Some(word)) => Some((conn, word, rest)),
        _ => None,
    }
}
