//! The rule between a chronicle and its tokens, over what each knows (`specs/body/TokenRule.antt`): one of them owns the history,
//! and what each other is of begins it.
use crate::history::History;
use crossbeam_queue::protocol::{Join, Lesson, Protocol, Split};
use std::marker::{Brand, PhantomData};

/// Whether it is the owner's, its history, and that of the token which it took in last. No value of it is made.
pub struct ChronicleView<H> {
    pub owns: bool,
    pub history: Option<H>,
    pub checked: Option<H>,
}

/// The rule: what each is of, and has checked, begins what the owner has.
pub struct BeginsOwner;

impl<H: History> Protocol<(), ChronicleView<H>> for BeginsOwner {
    ghost use Rattle.chronicle.specs.body.TokenRule.{BeginOwner, unwritten};

    ghost holds = { λ items views. BeginOwner H.begins views };

    ghost first = { unwritten };
}

/// The history that comes next, which each call of `record` picks.
pub trait Naming<H> {
    ghost use Rattle.std.specs.Prelude.{Option};

    ghost next: { Option H };
}

impl<H> Naming<H> for Brand {
    ghost use Rattle.std.specs.Prelude.{None};

    ghost next = { None };
}

/// The owner has the next history, and a token of it is cut.
pub struct Records<J> {
    of: PhantomData<J>,
}

impl<H, J: Naming<H>> Split<ChronicleView<H>> for Records<J> {
    ghost use Rattle.chronicle.specs.body.TokenRule.{owner, token};

    ghost left = { λ v. owner J.next v.checked };

    ghost right = { λ v. token J.next };
}

/// The owner takes a token in.
pub struct Checks;

impl<H> Join<ChronicleView<H>> for Checks {
    ghost use Rattle.chronicle.specs.body.TokenRule.{with_checked, nobody};

    ghost both = { with_checked };

    ghost spent = { nobody };
}

/// What the owner took in last begins what it has.
pub struct Shows;

impl<H: History> Lesson<(), ChronicleView<H>> for Shows {
    ghost use Rattle.chronicle.specs.Recorded.{Reaches};

    ghost fact = { λ v items. Reaches H.begins v.checked v.history };
}
