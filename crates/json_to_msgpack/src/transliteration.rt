//! From a JSON text to octets of MessagePack.
ghost use Rattle.std.specs.Prelude.{◌≡◌, IfOk, MatchOption, IsUtf8, Ok, false, true};
ghost use Rattle.serde_json.specs.Read.{read};
ghost use Rattle.json_to_msgpack.specs.Transliteration.{IsTransliterated, IsWellFormed};

use crate::lexer::Lexer;
use crate::refusal::TextRefusal;
use crate::values::put_value;
use bumpalo::Bump;
use json::{Reader, Scratch};
use msgpack_codec::is_ascii;
use simdutf8::basic::from_utf8;
use std::alloc::{AllocError, Global};
use std::str::from_utf8_unchecked;

/// How deep lists and dictionaries may nest in a text that is read at all. A message has room for 100: those that are
/// deeper may stand under a key that comes once more.
const MOST_LEVELS: u8 = 127;

/// What a JSON text becomes.
#[derive(Drop)]
pub enum Transliteration {
    /// Octets of MessagePack that spell the message that the text is.
    Octets(Vec<u8>),
    /// The text is no message: it isn't UTF-8, no JSON, or JSON of more than 127 levels or with a number that is too
    /// large for a float.
    NoJson,
    /// The text is JSON that nests more than 100 levels, and not only under keys that come once more.
    TooDeep,
    /// The text is JSON of up to 127 levels, in which a text, list or dictionary has 2^32 octets or members, as no
    /// frame of a connection has: its tree would tell more of it.
    Undecided,
}

/// The text that octets are in UTF-8, if they are one.
fn text_of(octets: &[u8]) -> Option<&str>
    ensures { MatchOption result (IsUtf8 octets.now → ⊥)
        (λ text. (text.now ≡ octets.now) × IsUtf8 octets.now) }
{
    if is_ascii(octets) {
        return Some(unsafe { from_utf8_unchecked(octets) });
    }
    from_utf8(octets).ok()
}

/// What a text is that is one value, with an arena for keys.
#[inline(always)]
fn message_of<'a>(
    alloc: Global,
    arena: &'a Bump,
    text: &'a str,
) -> Result<Transliteration, TextRefusal>
    requires { IsUtf8 text.now }
    ensures { IfOk result (IsTransliterated text.now) }
{
    let mut out = Vec::with_capacity(alloc, text.len())?;
    let mut lexer = Lexer::new(text);
    let fit = put_value(alloc, arena, &mut lexer, MOST_LEVELS, &mut out)?;
    if !fit.is_read() {
        return Ok(Transliteration::NoJson);
    }
    if !lexer.is_at_end() {
        return Err(TextRefusal::Unclear);
    }
    if fit.is_within() {
        return Ok(Transliteration::Octets(out));
    }
    Ok(Transliteration::TooDeep)
}

/// Whether a text is JSON of up to 127 levels, whatever its numbers.
fn is_well_formed(alloc: Global, text: &str) -> Result<bool, AllocError>
    requires { IsUtf8 text.now }
    ensures yes { result ≡ Ok true → IsWellFormed text.now }
    ensures no { result ≡ Ok false → read text.now ≡ None }
{
    let mut scratch = Scratch::new(alloc);
    let mut reader = Reader::new(text, &mut scratch)?;
    Ok(reader.skip_value(MOST_LEVELS as usize).is_ok() && reader.next().is_none())
}

/// What a text is whose octets weren't written.
#[inline(never)]
fn judge(alloc: Global, text: &str) -> Result<Transliteration, AllocError>
    requires { IsUtf8 text.now }
    ensures { IfOk result (IsTransliterated text.now) }
{
    if is_well_formed(alloc, text)? {
        Ok(Transliteration::Undecided)
    } else {
        Ok(Transliteration::NoJson)
    }
}

/// Octets of MessagePack that spell the message that a JSON text is (RFC 8259), as
/// [`json_codec::decode`] would read it; no tree is built.
///
/// Heads, whole numbers, texts and byte strings are the shortest. Keys stand as they come,
/// repeated ones too: of these the last counts, as in the text. An earlier value that nests too
/// deep for a message is written as null. A number that isn't whole, or outside -2^63 to
/// 2^64 - 1, is written as the float 0, since a message doesn't carry it. So where keys ascend
/// and all is carried, the octets are those that `msgpack_codec` writes.
///
/// [`Transliteration::NoJson`] where `json_codec::decode` finds the text malformed,
/// [`Transliteration::TooDeep`] where it finds it too deep, and [`Transliteration::Undecided`]
/// where that is left to say what the text is, as of no text that is shorter than 2^32 octets.
///
/// Memory: the buffer that is given has one octet for each octet of the text from the start, which
/// most texts stay within; none becomes more than five octets for two (`-0`), so that the buffer
/// is doubled twice at most, to four for each, with two more while it is copied. A string that has
/// escapes is copied without them, and a byte string takes three octets for four while it is
/// decoded. What is inside of a list or dictionary of 16 members or more is copied once when its
/// head is written, and back: of a text that nests such lists in one another that is up to 200
/// copies. Keys whose value nests too deep stand in a set until they come once more with one that
/// doesn't, or their dictionary ends, those with escapes also in an arena: of texts that are made
/// of such members, this takes up to five octets for each of the text, and their buffer isn't
/// doubled. A text that isn't JSON is looked at once more, with one octet for each of its own.
///
/// Time: one pass, but for those copies and that look. Once a value of a dictionary nests too deep,
/// the keys that follow in it are looked for in the set, each in as many steps as the logarithm of
/// its size.
///
/// # Errors
/// [`AllocError`] where a growth was refused.
pub fn to_msgpack(alloc: Global, json: &[u8]) -> Result<Transliteration, AllocError>
    ensures { IfOk result (IsTransliterated json.now) }
{
    let Some(text) = text_of(json) else {
        return Ok(Transliteration::NoJson);
    };
    let arena = Bump::new(alloc);
    match message_of(alloc, &arena, text) {
        Ok(message) => Ok(message),
        Err(TextRefusal::Unclear) => judge(alloc, text),
        Err(TextRefusal::NoMemory) => Err(AllocError),
    }
}
