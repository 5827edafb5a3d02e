//! What a value is, and what it begins as.
use crate::dictionary::Dictionary;
use crate::elements::Elements;

/// A value, as far as it can be seen without a look inside.
#[derive(Drop)]
pub enum Seen<'a> {
    /// nil.
    Null,
    /// false or true.
    Flag(bool),
    /// A whole number, from -2^63 to 2^64 - 1.
    Whole(i128),
    /// A str that is UTF-8.
    Text(&'a str),
    /// A bin.
    Bytes(&'a [u8]),
    /// An array.
    List(Elements<'a>),
    /// A map whose keys are texts.
    Dict(Dictionary<'a>),
    /// What no tree carries: a float, a value of an extension type, a str that isn't UTF-8, a map with another key than a text.
    Uncarried,
}

/// A value, as its first octets tell it.
#[derive(Clone, Copy, Debug, Drop, PartialEq, Eq)]
pub enum Beginning {
    /// nil.
    Null,
    /// An array.
    List,
    /// A map. It is uncarried where one of its keys is no text.
    Map,
    /// What no tree carries, with nothing inside.
    Uncarried,
    /// A flag, a number, a text or a byte string.
    Leaf,
}
