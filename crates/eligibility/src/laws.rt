//! What follows from the definition of who is admitted alone. These functions do nothing: each is
//! there for its contract.
ghost use Rattle.std.specs.Prelude.{◌≡◌, ◌==◌, ℕ, ℤ, List, [], true, false, not, Some};
ghost use Rattle.eligibility.specs.Lists.{Audience, everyone, admits, has_number};
ghost use Rattle.eligibility.specs.declared.who.Who.{Who};

/// A session that `exclude` names is never admitted, whatever else the options say.
pub fn excluded_is_not_admitted()
    ensures { (a : Audience) (who publisher : Who) (numbers : List ℤ) →
        a.exclude ≡ Some numbers → has_number who.id numbers ≡ true
        → admits a who publisher ≡ false }
{}

/// An empty eligible list admits nobody, whatever else the options say.
pub fn empty_eligible_admits_nobody()
    ensures numbers { (a : Audience) (who publisher : Who) → a.eligible ≡ Some []
        → admits a who publisher ≡ false }
    ensures authids { (a : Audience) (who publisher : Who) → a.eligible_authid ≡ Some []
        → admits a who publisher ≡ false }
    ensures authroles { (a : Audience) (who publisher : Who) → a.eligible_authrole ≡ Some []
        → admits a who publisher ≡ false }
{}

/// Without options everyone is admitted but the publisher's own connection.
pub fn everyone_but_the_publisher()
    ensures { (who publisher : Who)
        → admits everyone who publisher ≡ not (who.conn == publisher.conn) }
{}
