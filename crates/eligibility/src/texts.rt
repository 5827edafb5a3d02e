//! A list of authids or authroles, in a form in which one look-up takes few steps.
ghost use Rattle.std.specs.Prelude.{◌≡◌, ◌==◌, List, length, IfOk, Some, None};
ghost use Rattle.message_tree.specs.Data.{Items, list};
ghost use Rattle.msgpack_codec.specs.Grammar.{Spells};
ghost use Rattle.eligibility.specs.Options.{each_of, text_of};
ghost use Rattle.eligibility.specs.Lists.{has_text};

use crate::fault::Fault;
use crate::places::{find_text, places_in, put_in_order};
use message_tree::Text;
use std::alloc::Global;
use std::marker::Model;

/// A list of authids or authroles. Contracts see the texts as they were given; what is kept are the
/// octets that spell the list, and where each text begins in them, in the order of the texts and
/// each text once.
#[derive(Drop)]
pub(crate) struct Texts {
    octets: Vec<u8>,
    places: Vec<u32>,
}

impl Model for Texts {
    ghost use Rattle.std.specs.Prelude.{ℕ, List};
    ghost use Rattle.eligibility.specs.Options.{text_of};
    ghost use Rattle.eligibility.specs.body.Standing.{listed_in, IsIndex};

    ghost Value = { List (List ℕ) };

    ghost view = { λ t. listed_in text_of t.octets.items };

    ghost invariant = { λ t. IsIndex t.octets.items t.places.items };
}

impl Texts {
    /// The list that stands in these octets.
    pub fn of(alloc: Global, octets: &[u8]) -> Result<Texts, Fault>
        requires { (items : Items) × Spells 100 octets.now (list items) }
        ensures ok { IfOk result (λ t. (items : Items) → Spells 100 octets.now (list items)
            → each_of text_of items ≡ Some t) }
        ensures bad { result ≡ Err Fault.Shape → (items : Items)
            → Spells 100 octets.now (list items) → each_of text_of items ≡ None }
    {
        let mut places = places_in(alloc, octets)?;
        put_in_order(&mut places, octets);
        let octets = Vec::from_slice(alloc, octets)?;
        Ok(Texts { octets, places })
    }

    /// Whether there are none.
    pub fn is_empty(&self) -> bool
        ensures { result ≡ (length self.now == 0) }
    {
        self.places.is_empty()
    }

    /// Whether this text is among them.
    pub fn has(&self, text: &Text) -> bool
        ensures { result ≡ has_text text.now self.now }
    {
        find_text(&self.octets, &self.places, text.as_str().as_bytes())
    }
}
