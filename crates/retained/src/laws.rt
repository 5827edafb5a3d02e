//! What follows from the definition of what is retained alone. This function does nothing: it is
//! there for its contract.
ghost use Rattle.std.specs.Prelude.{◌≡◌, ℕ, List, take};
ghost use Rattle.retained.specs.Store.{AreByTopic, of_topic, retained_of};
ghost use Rattle.wamp_messages.specs.declared.item.Publication.{Publication};

/// Of each topic at most one publication is retained: the last one that was to be. They are in
/// strictly ascending order of their topics.
pub fn one_a_topic()
    ensures last { (kept : List Publication) (topic : List ℕ)
        → of_topic topic (retained_of kept) ≡ take 1 (of_topic topic kept) }
    ensures order { (kept : List Publication) → AreByTopic (retained_of kept) }
{}
