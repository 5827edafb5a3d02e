//! Tokens of a JSON text.
/// A value with nothing inside.
#[derive(Drop)]
pub(crate) enum JsonToken<'a> {
    Null,
    Flag(bool),
    /// A number, as it stands in the text.
    Number(&'a [u8]),
    /// Without its escapes.
    String(String),
}

/// What may stand next, as commas and colons say.
#[derive(Clone, Copy, Drop)]
pub(crate) enum LexPlace {
    /// A value, a key, or the bracket that closes.
    Fresh,
    /// The bracket that closes, or the end.
    AfterValue,
    /// A value or a key.
    AfterComma,
}
