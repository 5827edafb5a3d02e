//! Where a realm's words come from.
ghost use Rattle.std.specs.Prelude.{◌≡◌, [], ◌∷◌};
ghost use Rattle.realm_actor.specs.Words.{◌⊕◌};

/// A source of words, of each of which an id is made ([`wamp_ids::Id::of_word`]). Contracts see whether it
/// counts, and the words that it gave so far.
pub trait IdSource: Drop {
    ghost use Rattle.realm_actor.specs.Words.{Words};

    ghost given: { Self → Words };

    /// The next word: any number below 2^64.
    fn next_word(&mut self) -> u64
        ensures { given self.new ≡ given self.old ⊕ (result ∷ []) };
}
