//! Laws of what a cursor sees in octets.
ghost use Rattle.std.specs.Prelude.{◌≡◌, ◌↔◌, ℕ, List, [], length, true, Ok};
ghost use Rattle.message_tree.specs.Data.{Data, Items, Entries, null, dict, no_entries};
ghost use Rattle.msgpack_codec.specs.Grammar.{Spells};
ghost use Rattle.msgpack_cursor.specs.Standing.{value_in, rest_in, items_in, dict_in, entries_in};
ghost use Rattle.msgpack_cursor.specs.Standing.{is_whole, IsValue, AreThere, IsDictionary};
ghost use Rattle.msgpack_cursor.specs.Entries.{Pair, put_all, pairs_in, ArePairs};
ghost use Rattle.msgpack_laws.specs.Spelled.{Stands, NoneStands, AreWhole, AreStanding};
ghost use Rattle.msgpack_laws.specs.Spelled.{MapStands, PairsStand};

/// The value at the front, and the rest behind it, are those that a front spells; where none does, null and nothing.
pub fn front_is_seen()
    ensures value { (room : ℕ) (octets rest : List ℕ) (d : Data) → Stands room octets d rest
        → (value_in room octets ≡ d) × (rest_in room octets ≡ rest) }
    ensures nothing { (room : ℕ) (octets : List ℕ) → NoneStands room octets
        → (value_in room octets ≡ null) × (rest_in room octets ≡ []) }
{}

/// Octets are one value, and this one, exactly where they spell it.
pub fn value_is_spelled()
    ensures { (room : ℕ) (octets : List ℕ) (d : Data)
        → (IsValue room octets × (value_in room octets ≡ d)) ↔ Spells room octets d }
{}

/// So many values are there, and these, exactly where a front spells them one behind the other.
pub fn values_are_spelled()
    ensures { (room n : ℕ) (octets : List ℕ) (ds : Items)
        → (AreThere room n octets × (items_in room n octets ≡ ds)) ↔ AreStanding room n octets ds }
{}

/// They are whole exactly where the octets spell them, and nothing stands behind.
pub fn whole_is_spelled()
    ensures { (room n : ℕ) (octets : List ℕ) (ds : Items)
        → ((is_whole room n octets ≡ true) × (items_in room n octets ≡ ds)) ↔ AreWhole room n octets ds }
{}

/// So many keys are read, each with its value behind it, exactly where a front spells them, and they
/// are read as the map that they make.
pub fn map_is_spelled()
    ensures { (room n : ℕ) (octets rest : List ℕ) (d : Data)
        → (dict_in room n octets ≡ Ok (d, rest)) ↔ MapStands room n octets d rest }
{}

/// They are a dictionary, and this one, exactly where they make it: so each of them is a text.
pub fn dictionary_is_spelled()
    ensures { (room n : ℕ) (octets : List ℕ) (es : Entries)
        → (IsDictionary room n octets × (entries_in room n octets ≡ es))
        ↔ ((rest : List ℕ) × MapStands room n octets (dict es) rest) }
{}

/// So many texts are there, each with its value, and these, exactly where a front spells them.
pub fn pairs_are_spelled()
    ensures { (room n : ℕ) (octets : List ℕ) (pairs : List Pair)
        → (ArePairs room n octets × (pairs_in room n octets ≡ pairs))
        ↔ ((length pairs ≡ n) × PairsStand room octets pairs) }
{}

/// A dictionary is there exactly where texts are, each with its value; these make it, put one behind the other.
pub fn dictionary_is_its_pairs()
    ensures there { (room n : ℕ) (octets : List ℕ)
        → IsDictionary room n octets ↔ ArePairs room n octets }
    ensures entries { (room n : ℕ) (octets : List ℕ) → ArePairs room n octets
        → entries_in room n octets ≡ put_all (pairs_in room n octets) no_entries }
{}
