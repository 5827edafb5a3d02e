//! The keys of a dictionary whose values nest too deep.
ghost use Rattle.std.specs.Prelude.{◌≡◌, ℕ, List, not, cond, true, false, OnOk, IfOk};
ghost use Rattle.std.specs.Bool.{MatchBool};
ghost use Rattle.std.specs.Str.{bytes_eq};
ghost use Rattle.json_to_msgpack.specs.body.Keys.{key_octets, has_key};

use crate::refusal::TextRefusal;
use bumpalo::Bump;
use std::alloc::Global;
use std::collections::BTreeSet;

/// A key, without its escapes.
#[derive(Drop)]
pub(crate) enum Key<'a> {
    /// As it stands in the text.
    Plain(&'a str),
    /// Written with escapes.
    Unescaped(String),
}

/// The keys whose value, the last so far, nests too deep: mostly none, which takes no memory.
#[derive(Drop)]
pub(crate) struct DeepKeys<'a> {
    keys: BTreeSet<&'a str>,
}

impl<'a> DeepKeys<'a> {
    /// No key.
    #[inline(always)]
    pub(crate) fn new(alloc: Global) -> DeepKeys<'a>
        ensures { (q : List ℕ) → has_key result q ≡ false }
    {
        DeepKeys {
            keys: BTreeSet::new(alloc),
        }
    }

    /// Whether there is no key.
    #[inline(always)]
    pub(crate) fn is_empty(&self) -> bool
        ensures { MatchBool result ((q : List ℕ) → has_key self.now q ≡ false)
            ((q : List ℕ) × (has_key self.now q ≡ true)) }
    {
        self.keys.is_empty()
    }

    /// Notes the value of a key, in place of its earlier ones: whether it nests within the room. A key with escapes
    /// that has to stay is copied into `arena`.
    #[inline(always)]
    pub(crate) fn note(
        &mut self,
        arena: &'a Bump,
        key: Key<'a>,
        within: bool,
    ) -> Result<(), TextRefusal>
        ensures { OnOk result ((q : List ℕ) → has_key self.new q
            ≡ cond (bytes_eq (key_octets key.entry) q) (not within) (has_key self.old q)) }
    {
        if within && self.is_empty() {
            return Ok(());
        }
        self.set(arena, key, within)
    }

    /// The same where a key is set or may have been.
    #[inline(never)]
    fn set(&mut self, arena: &'a Bump, key: Key<'a>, within: bool) -> Result<(), TextRefusal>
        ensures { OnOk result ((q : List ℕ) → has_key self.new q
            ≡ cond (bytes_eq (key_octets key.entry) q) (not within) (has_key self.old q)) }
    {
        match key {
            Key::Plain(text) => {
                if within {
                    self.remove(text);
                    Ok(())
                } else {
                    self.insert(text)
                }
            }
            Key::Unescaped(text) => {
                if within {
                    self.remove(text.as_str());
                    Ok(())
                } else {
                    self.insert(kept(arena, text.as_str())?)
                }
            }
        }
    }

    fn remove(&mut self, text: &str)
        ensures { (q : List ℕ)
            → has_key self.new q ≡ cond (bytes_eq text.now q) false (has_key self.old q) }
    {
        self.keys.remove(text);
    }

    fn insert(&mut self, text: &'a str) -> Result<(), TextRefusal>
        ensures { OnOk result ((q : List ℕ)
            → has_key self.new q ≡ cond (bytes_eq text.now q) true (has_key self.old q)) }
    {
        let Ok(_) = self.keys.insert(text) else {
            return Err(TextRefusal::NoMemory);
        };
        Ok(())
    }
}

/// The same text, for as long as the arena stays.
fn kept<'a>(arena: &'a Bump, text: &str) -> Result<&'a str, TextRefusal>
    ensures { IfOk result (λ copy. copy.now ≡ text.now) }
{
    match arena.try_alloc_str(text) {
        Ok(copy) => Ok(copy),
        Err(_) => Err(TextRefusal::NoMemory),
    }
}
