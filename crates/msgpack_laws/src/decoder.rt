//! Laws of what the decoder reads.
ghost use Rattle.std.specs.Prelude.{◌≡◌, ◌≢◌, ◌↔◌, ◌++◌, ℕ, List, Ok, Err};
ghost use Rattle.message_tree.specs.Data.{Data};
ghost use Rattle.msgpack_codec.specs.Grammar.{Spells, IsDeep};
ghost use Rattle.msgpack_codec.specs.Written.{IsNoValue};
ghost use Rattle.msgpack_codec.specs.body.Decoder.{value_at};
ghost use Rattle.msgpack_codec.specs.declared.fault.Fault.{Fault as Cause};
ghost use Rattle.msgpack_codec.specs.declared.fault.Fault.TheVariants.{TooDeep};
ghost use Rattle.msgpack_laws.specs.Spelled.{Stands};

/// A value is read exactly where a front of the octets spells it; what is left is the rest.
pub fn read_is_spelled()
    ensures { (room : ℕ) (octets rest : List ℕ) (d : Data)
        → (value_at room octets ≡ Ok (d, rest)) ↔ Stands room octets d rest }
{}

/// One front of octets spells a value, with whatever room, and it spells one.
pub fn one_front()
    ensures { (room more : ℕ) (front other rest left : List ℕ) (d e : Data)
        → Spells room front d → Spells more other e → front ++ rest ≡ other ++ left
        → (front ≡ other) × (d ≡ e) × (rest ≡ left) }
{}

/// Octets are refused as too deep exactly where they are.
pub fn deep_is_refused()
    ensures { (room : ℕ) (octets : List ℕ)
        → (value_at room octets ≡ Err TooDeep) ↔ IsDeep room octets }
{}

/// They are refused by another fault exactly where no front spells a value, and nothing is too deep.
pub fn else_is_no_value()
    ensures { (room : ℕ) (octets : List ℕ)
        → ((fault : Cause) × (fault ≢ TooDeep) × (value_at room octets ≡ Err fault))
        ↔ IsNoValue room octets }
{}
