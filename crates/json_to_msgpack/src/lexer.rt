//! A JSON text, a token at a time.
ghost use Rattle.std.specs.Prelude.{◌≡◌, ◌≤◌, ◌<◌, ◌+◌, ◌⊎◌, ◌∷◌, [], length, drop, true, IsTrue, IfSome, IfOk, MatchOption};
ghost use Rattle.std.specs.Bool.{MatchBool};
ghost use Rattle.std.specs.String.{string_bytes};
ghost use Rattle.json.specs.Token as grammar;
ghost use Rattle.json.specs.Lex.{may_begin, may_close, tokens};
ghost use Rattle.json_to_msgpack.specs.body.Lexing.{token_of, place_of, tokens_left, BeginsAt, BeginsNatural, IsTaken, opening, closing, IsAfterValue, IsAfterKey, IsStringAt};

use crate::literals::{natural_at, word_at};
use crate::refusal::TextRefusal;
use crate::scan::{octet_at, plain_end, spaces_end};
use crate::token::{JsonToken, LexPlace};
use crate::unescape::unescape;
use std::alloc::Global;
use std::marker::Model;

impl LexPlace {
    /// Whether a value or a key may stand next.
    #[inline(always)]
    fn is_open(self) -> bool
        ensures { result ≡ may_begin (place_of self) }
    {
        match self {
            LexPlace::AfterValue => false,
            LexPlace::Fresh | LexPlace::AfterComma => true,
        }
    }

    /// Whether a closing bracket, or the end, may stand next.
    #[inline(always)]
    fn is_complete(self) -> bool
        ensures { result ≡ may_close (place_of self) }
    {
        match self {
            LexPlace::AfterComma => false,
            LexPlace::Fresh | LexPlace::AfterValue => true,
        }
    }
}

/// The string at a place, where it has no escapes, and where the text goes on behind it.
#[inline(always)]
fn plain_at<'a>(text: &'a str, at: usize) -> Option<(&'a str, usize)>
    ensures { IfSome result (λ r. (drop at text.now ≡ 34 ∷ drop (at + 1) text.now)
        × IsStringAt text.now (at + 1) r.0.now r.1) }
{
    let octets = text.as_bytes();
    let Some(b'"') = octet_at(octets, at) else {
        return None;
    };
    let stop = plain_end(octets, at + 1);
    let Some(b'"') = octet_at(octets, stop) else {
        return None;
    };
    Some((&text[at + 1..stop], stop + 1))
}

/// The string at a place, without its escapes, and where the text goes on behind it.
#[inline(always)]
fn string_at(alloc: Global, text: &str, at: usize) -> Result<(String, usize), TextRefusal>
    ensures { IfOk result (λ r. (drop at text.now ≡ 34 ∷ drop (at + 1) text.now)
        × IsStringAt text.now (at + 1) (string_bytes r.0) r.1) }
{
    let Some(b'"') = octet_at(text.as_bytes(), at) else {
        return Err(TextRefusal::Unclear);
    };
    unescape(alloc, text, at + 1)
}

/// What follows a value: a comma, which is passed, a closing bracket, or the end.
#[inline(always)]
fn after_value(octets: &[u8], from: usize) -> Option<(LexPlace, usize)>
    requires { from ≤ length octets.now }
    ensures { IfSome result (λ r. IsAfterValue octets.now from r.0 r.1) }
{
    let at = spaces_end(octets, from);
    match octet_at(octets, at) {
        Some(b',') => Some((LexPlace::AfterComma, spaces_end(octets, at + 1))),
        Some(b']') => Some((LexPlace::AfterValue, at)),
        Some(b'}') => Some((LexPlace::AfterValue, at)),
        None => Some((LexPlace::AfterValue, at)),
        _ => None,
    }
}

/// Where the value of a key may begin, behind the colon that follows the key.
#[inline(always)]
fn after_key(octets: &[u8], from: usize) -> Option<usize>
    requires { from ≤ length octets.now }
    ensures { IfSome result (λ to. IsAfterKey (drop from octets.now) (drop to octets.now)) }
{
    let colon = spaces_end(octets, from);
    match octet_at(octets, colon) {
        Some(b':') => Some(spaces_end(octets, colon + 1)),
        _ => None,
    }
}

/// The value with nothing inside that stands at a place, what may stand behind it, and where that
/// is.
#[inline(always)]
fn token_at<'a>(
    alloc: Global,
    text: &'a str,
    at: usize,
) -> Result<(JsonToken<'a>, LexPlace, usize), TextRefusal>
    ensures { IfOk result (λ r. BeginsAt text.now at (token_of r.0) r.1 r.2) }
{
    match octet_at(text.as_bytes(), at) {
        Some(b'"') => string_token(alloc, text, at),
        Some(_) => word_token(text, at),
        None => Err(TextRefusal::Unclear),
    }
}

/// The string at a place that has no escapes, as a value.
#[inline(always)]
fn plain_token<'a>(text: &'a str, at: usize) -> Option<(&'a str, LexPlace, usize)>
    ensures { IfSome result (λ r. BeginsAt text.now at (grammar.string r.0.now) r.1 r.2) }
{
    let (string, end) = plain_at(text, at)?;
    let (place, next) = after_value(text.as_bytes(), end)?;
    Some((string, place, next))
}

/// The digits at a place, as a value.
#[inline(always)]
fn natural_token(octets: &[u8], at: usize) -> Option<(u64, LexPlace, usize)>
    ensures { IfSome result
        (λ r. BeginsNatural (drop at octets.now) r.0 r.1 (drop r.2 octets.now)) }
{
    let (natural, end) = natural_at(octets, at)?;
    let (place, next) = after_value(octets, end)?;
    Some((natural, place, next))
}

/// The string at a place, as a value.
#[inline(always)]
fn string_token<'a>(
    alloc: Global,
    text: &'a str,
    at: usize,
) -> Result<(JsonToken<'a>, LexPlace, usize), TextRefusal>
    ensures { IfOk result (λ r. BeginsAt text.now at (token_of r.0) r.1 r.2) }
{
    match string_at(alloc, text, at) {
        Ok((string, end)) => match after_value(text.as_bytes(), end) {
            Some((place, next)) => Ok((JsonToken::String(string), place, next)),
            None => Err(TextRefusal::Unclear),
        },
        Err(refusal) => Err(refusal),
    }
}

/// The number or literal at a place.
#[inline(always)]
fn word_token<'a>(text: &'a str, at: usize) -> Result<(JsonToken<'a>, LexPlace, usize), TextRefusal>
    requires { at < length text.now }
    ensures { IfOk result (λ r. BeginsAt text.now at (token_of r.0) r.1 r.2) }
{
    let Some((token, end)) = word_at(text, at) else {
        return Err(TextRefusal::Unclear);
    };
    let Some((place, next)) = after_value(text.as_bytes(), end) else {
        return Err(TextRefusal::Unclear);
    };
    Ok((token, place, next))
}

/// The key at a place that has no escapes, and where its value may begin.
#[inline(always)]
fn plain_key_at<'a>(text: &'a str, at: usize) -> Option<(&'a str, usize)>
    ensures { IfSome result (λ r. BeginsAt text.now at (grammar.key r.0.now) LexPlace.Fresh r.1) }
{
    let (key, end) = plain_at(text, at)?;
    let next = after_key(text.as_bytes(), end)?;
    Some((key, next))
}

/// The key at a place, and where its value may begin.
#[inline(always)]
fn key_at(alloc: Global, text: &str, at: usize) -> Result<(String, usize), TextRefusal>
    ensures { IfOk result
        (λ r. BeginsAt text.now at (grammar.key (string_bytes r.0)) LexPlace.Fresh r.1) }
{
    match string_at(alloc, text, at) {
        Ok((key, end)) => match after_key(text.as_bytes(), end) {
            Some(next) => Ok((key, next)),
            None => Err(TextRefusal::Unclear),
        },
        Err(refusal) => Err(refusal),
    }
}

/// What stands behind a bracket that opens, where it stands at a place.
#[inline(always)]
fn open_at(octets: &[u8], at: usize, bracket: u8) -> Option<usize>
    requires { (bracket ≡ 91) ⊎ (bracket ≡ 123) }
    ensures { IfSome result (λ next. BeginsAt octets.now at (opening bracket) LexPlace.Fresh next) }
{
    if octet_at(octets, at)? != bracket {
        return None;
    }
    Some(spaces_end(octets, at + 1))
}

/// What stands behind a closing bracket, if it stands at a place and may.
#[inline(always)]
fn end_at(octets: &[u8], at: usize, place: LexPlace, bracket: u8) -> Option<(LexPlace, usize)>
    requires { (bracket ≡ 93) ⊎ (bracket ≡ 125) }
    ensures { IfSome result (λ r. tokens_left place (drop at octets.now)
        ≡ closing bracket ∷ tokens_left r.0 (drop r.1 octets.now)) }
{
    if octet_at(octets, at)? != bracket || !place.is_complete() {
        return None;
    }
    after_value(octets, at + 1)
}

/// A JSON text. A clause sees the tokens that are still to come.
#[derive(Drop)]
pub(crate) struct Lexer<'a> {
    text: &'a str,
    at: usize,
    place: LexPlace,
}

impl<'a> Model for Lexer<'a> {
    ghost use Rattle.std.specs.Prelude.{List, drop};
    ghost use Rattle.json.specs.Token.{Token as GrammarToken, tokens_code};

    ghost Value = { List GrammarToken };

    ghost coded = { tokens_code };

    ghost use Rattle.json_to_msgpack.specs.body.Lexing.{tokens_left};

    ghost view = { λ a. tokens_left a.place (drop a.at a.text.now) };
}

impl<'a> Lexer<'a> {
    /// All of a text.
    #[inline(always)]
    pub(crate) fn new(text: &'a str) -> Lexer<'a>
        ensures { result ≡ tokens text.now }
    {
        Lexer {
            text,
            at: spaces_end(text.as_bytes(), 0),
            place: LexPlace::Fresh,
        }
    }

    /// Whether no token is left.
    pub(crate) fn is_at_end(&self) -> bool
        ensures { IsTrue result → self.now ≡ [] }
    {
        self.place.is_complete() && self.at == self.text.len()
    }

    /// Takes a string that has no escapes, where one stands next.
    #[inline(always)]
    pub(crate) fn take_plain(&mut self) -> Option<&'a str>
        ensures { MatchOption result (self.new ≡ self.old)
            (λ s. self.old ≡ grammar.string s.now ∷ self.new) }
    {
        if !self.place.is_open() {
            return None;
        }
        match plain_token(self.text, self.at) {
            Some((string, place, at)) => {
                self.place = place;
                self.at = at;
                Some(string)
            }
            None => None,
        }
    }

    /// Takes a number, where digits stand next that are one by themselves.
    #[inline(always)]
    pub(crate) fn take_natural(&mut self) -> Option<u64>
        ensures { MatchOption result (self.new ≡ self.old) (λ n. IsTaken n self.old self.new) }
    {
        if !self.place.is_open() {
            return None;
        }
        match natural_token(self.text.as_bytes(), self.at) {
            Some((natural, place, at)) => {
                self.place = place;
                self.at = at;
                Some(natural)
            }
            None => None,
        }
    }

    /// Takes a key that has no escapes, and its colon, where they stand next.
    #[inline(always)]
    pub(crate) fn take_plain_key(&mut self) -> Option<&'a str>
        ensures { MatchOption result (self.new ≡ self.old)
            (λ k. self.old ≡ grammar.key k.now ∷ self.new) }
    {
        if !self.place.is_open() {
            return None;
        }
        match plain_key_at(self.text, self.at) {
            Some((key, at)) => {
                self.place = LexPlace::Fresh;
                self.at = at;
                Some(key)
            }
            None => None,
        }
    }

    /// Takes the bracket that opens a list, where it stands next.
    #[inline(always)]
    pub(crate) fn take_begin_array(&mut self) -> bool
        ensures { MatchBool result (self.old ≡ grammar.begin_array ∷ self.new)
            (self.new ≡ self.old) }
    {
        self.take_open(b'[')
    }

    /// Takes the bracket that opens a dictionary, where it stands next.
    #[inline(always)]
    pub(crate) fn take_begin_object(&mut self) -> bool
        ensures { MatchBool result (self.old ≡ grammar.begin_object ∷ self.new)
            (self.new ≡ self.old) }
    {
        self.take_open(b'{')
    }

    /// Takes a bracket that opens, where it stands next.
    #[inline(always)]
    fn take_open(&mut self, bracket: u8) -> bool
        requires { (bracket ≡ 91) ⊎ (bracket ≡ 123) }
        ensures { MatchBool result (self.old ≡ opening bracket ∷ self.new) (self.new ≡ self.old) }
    {
        if !self.place.is_open() {
            return false;
        }
        match open_at(self.text.as_bytes(), self.at, bracket) {
            Some(at) => {
                self.place = LexPlace::Fresh;
                self.at = at;
                true
            }
            None => false,
        }
    }

    /// Takes a value with nothing inside.
    #[inline(always)]
    pub(crate) fn take_token(&mut self, alloc: Global) -> Result<JsonToken<'a>, TextRefusal>
        ensures { IfOk result (λ t. self.old ≡ token_of t ∷ self.new) }
    {
        if !self.place.is_open() {
            return Err(TextRefusal::Unclear);
        }
        match token_at(alloc, self.text, self.at) {
            Ok((token, place, at)) => {
                self.place = place;
                self.at = at;
                Ok(token)
            }
            Err(refusal) => Err(refusal),
        }
    }

    /// Takes a key and its colon.
    #[inline(always)]
    pub(crate) fn take_key(&mut self, alloc: Global) -> Result<String, TextRefusal>
        ensures { IfOk result (λ k. self.old ≡ grammar.key (string_bytes k) ∷ self.new) }
    {
        if !self.place.is_open() {
            return Err(TextRefusal::Unclear);
        }
        match key_at(alloc, self.text, self.at) {
            Ok((key, at)) => {
                self.place = LexPlace::Fresh;
                self.at = at;
                Ok(key)
            }
            Err(refusal) => Err(refusal),
        }
    }

    /// Takes the bracket that closes a list, where it stands next.
    #[inline(always)]
    pub(crate) fn take_end_array(&mut self) -> bool
        ensures { MatchBool result (self.old ≡ grammar.end_array ∷ self.new) (self.new ≡ self.old) }
    {
        let Some(b']') = octet_at(self.text.as_bytes(), self.at) else {
            return false;
        };
        match end_at(self.text.as_bytes(), self.at, self.place, b']') {
            Some((place, at)) => {
                self.place = place;
                self.at = at;
                true
            }
            None => false,
        }
    }

    /// Takes the bracket that closes a dictionary, where it stands next.
    #[inline(always)]
    pub(crate) fn take_end_object(&mut self) -> bool
        ensures { MatchBool result (self.old ≡ grammar.end_object ∷ self.new)
            (self.new ≡ self.old) }
    {
        let Some(b'}') = octet_at(self.text.as_bytes(), self.at) else {
            return false;
        };
        match end_at(self.text.as_bytes(), self.at, self.place, b'}') {
            Some((place, at)) => {
                self.place = place;
                self.at = at;
                true
            }
            None => false,
        }
    }
}
