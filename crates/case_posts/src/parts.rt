//! The parts of a line.
ghost use Rattle.std.specs.Prelude.{◌≤◌, IfSome};

use case_text::part;
use wamp_ids::Conn;

/// The connection that a text begins with, and what is behind it.
pub fn conn_and_rest(text: &str) -> Option<(Conn, &str)> {
    let (number, rest) = part(text);
    let conn = Conn::new(number.parse::<u64>().ok()?)?;
    Some((conn, rest))
}

/// A capacity that an outbox may have.
pub fn capacity(text: &str) -> Option<usize>
    ensures least { IfSome result (λ cap. 1 ≤ cap) }
    ensures most { IfSome result (λ cap. cap ≤ 65536) }
{
    match text.parse::<usize>() {
        Ok(cap) if 1 <= cap && cap <= 65536 => Some(cap),
        _ => None,
    }
}
