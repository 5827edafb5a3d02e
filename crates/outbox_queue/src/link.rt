//! What an outbox and its drain share beside the queue.
//!
//! The end that adds comes over to the end that takes through a slot: a second ruled queue, of one place, whose rule says only of
//! which queue, capacity, connection and chronicle the end is that comes through it. So the drain can put both ends together.
ghost use Rattle.std.specs.Prelude.{◌≡◌, Option, Some, None, IfOk, IfSome};
ghost use Rattle.outbox_queue.specs.Slot.{whose_drain, whose_of};
ghost use Rattle.outbox_queue.specs.declared.link.Whose.{Whose as AWhose};
ghost use Rattle.crossbeam_queue.specs.Passes.{view as shown, IsPassOf, IsSamePass};

use crate::ends::Consumer;
use crate::owed::Owed;
use crate::parting::Farewell;
use chronicle::Name;
use crossbeam_queue::protocol::{Lesson, Outcome, Protocol, Split};
use crossbeam_queue::{Pass, RuledArrayQueue};
use std::alloc::{AllocError, Global};
use std::marker::{Brand, PhantomData};
use std::sync::Wait;
use std::sync::atomic::AtomicBool;

/// Where the end that adds comes over.
pub type Slot<T, H> = RuledArrayQueue<Farewell<T, H>, Option<Whose>, OneQueue>;

/// What an end knows of the slot: whose that is. It takes no bytes.
pub type SlotPass<T, H> = Pass<Farewell<T, H>, Option<Whose>>;

/// Whose an end is: its queue, how many items that holds, its connection, and its chronicle, if one is picked. No value of it is made.
pub struct Whose {
    pub queue: Name,
    pub capacity: usize,
    pub conn: u64,
    pub chronicle: Option<Name>,
}

/// The rule of the slot: what comes through it is of one queue.
pub struct OneQueue;

impl<T, H: Owed<T>> Protocol<Farewell<T, H>, Option<Whose>> for OneQueue {
    ghost use Rattle.std.specs.Prelude.{None};
    ghost use Rattle.outbox_queue.specs.Slot.{Keeps};

    ghost holds = { Keeps };

    ghost first = { None };
}

/// Whose the slot is, which who makes it picks.
pub trait Picking {
    ghost use Rattle.std.specs.Prelude.{Option};
    ghost use Rattle.outbox_queue.specs.declared.link.Whose.{Whose};

    ghost whose: { Option Whose };
}

impl Picking for Brand {
    ghost use Rattle.std.specs.Prelude.{None};

    ghost whose = { None };
}

/// Both passes know whose it is from now on.
pub struct Picked<J> {
    of: PhantomData<J>,
}

impl<J: Picking> Split<Option<Whose>> for Picked<J> {
    ghost left = { λ v. J.whose };

    ghost right = { λ v. J.whose };
}

/// An end goes into the slot, or comes out of it.
pub struct Through;

impl<T, H: Owed<T>> Outcome<Farewell<T, H>, Option<Whose>> for Through {
    ghost use Rattle.std.specs.Prelude.{◌≡◌, Some};
    ghost use Rattle.outbox_queue.specs.Slot.{whose_of};

    ghost then = { λ v x w. (w ≡ v) × (v ≡ Some (whose_of x.end)) };
}

impl<T, H: Owed<T>> Lesson<Farewell<T, H>, Option<Whose>> for Through {
    ghost use Rattle.std.specs.Prelude.{⊤};

    ghost fact = { λ v items. ⊤ };
}

/// What the two ends share.
#[derive(Drop)]
pub struct EndsLink<T, H: Owed<T>> {
    /// Nothing more is added.
    pub is_shut: AtomicBool,
    pub slot: Slot<T, H>,
}

// Cuts the one pass of a new slot into those of the two ends, which know whose it is: as this end is.
fn pick<T: Drop, H: Owed<T>, J: Picking>(
    slot: &Slot<T, H>,
    pass: &mut SlotPass<T, H>,
    _end: &Consumer<T, H>,
) -> SlotPass<T, H>
    requires slot { IsPassOf slot.now pass.old }
    requires none { shown pass.old ≡ None }
    requires whose { J.whose ≡ Some (whose_drain _end.now) }
    ensures slot { IsPassOf slot.now pass.new × IsPassOf slot.now result }
    ensures known { (shown pass.new ≡ Some (whose_drain _end.now))
        × (shown result ≡ Some (whose_drain _end.now)) }
{
    slot.another::<Picked<J>>(pass)
}

impl<T: Drop, H: Owed<T>> EndsLink<T, H> {
    /// What the two ends of the queue share of which this is one, and what each knows of the slot.
    pub fn new(
        alloc: Global,
        end: &Consumer<T, H>,
    ) -> Result<(EndsLink<T, H>, SlotPass<T, H>, SlotPass<T, H>), AllocError>
        ensures slot { IfOk result (λ l. IsPassOf l.0.slot l.1 × IsPassOf l.0.slot l.2) }
        ensures known { IfOk result (λ l. (shown l.1 ≡ Some (whose_drain end.now))
            × (shown l.2 ≡ Some (whose_drain end.now))) }
    {
        let (slot, mut pass) = Slot::ruled(alloc, 1)?;
        let other = pick::<T, H, Brand>(&slot, &mut pass, end);
        let link = EndsLink {
            is_shut: AtomicBool::new(false),
            slot,
        };
        Ok((link, pass, other))
    }

    /// Puts the end that adds into the slot. Nobody else puts anything there, so that the first attempt does.
    pub fn put(&self, pass: &mut SlotPass<T, H>, farewell: Farewell<T, H>)
        requires slot { IsPassOf self.now.slot pass.old }
        requires whose { shown pass.old ≡ Some (whose_of farewell.end) }
    {
        let _ = self.slot.try_push_as::<Through>(pass, farewell);
    }

    /// The end that adds, if it is in the slot.
    pub fn take<R: Wait>(&self, rt: &R, pass: &mut SlotPass<T, H>) -> Option<Farewell<T, H>>
        requires slot { IsPassOf self.now.slot pass.old }
        requires known { (whose : AWhose) × (shown pass.old ≡ Some whose) }
        ensures slot { IsPassOf self.now.slot pass.new }
        ensures known { shown pass.new ≡ shown pass.old }
        ensures whose { IfSome result (λ f. shown pass.old ≡ Some (whose_of f.end)) }
    {
        self.slot.pop_as::<Through, R>(rt, pass)
    }
}
