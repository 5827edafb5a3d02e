//! Who is served, and what became of the others.
ghost use Rattle.std.specs.Prelude.{◌≡◌, [], ◌∷◌, ◌++◌, None, Some, List, length, map, set, slice_get, All, IfOk, MatchOption, IsPermutation};
ghost use Rattle.std.specs.Option.{ForSome};
ghost use Rattle.ghost_state.specs.GhostList.{items_of};
ghost use Rattle.threaded_server.specs.Overs.{AddsUntouched, AllFound, AllWent, Found, Went, after_of, before_of};
ghost use Rattle.threaded_server.specs.Roster.{IsOfPlan, Leaves, halves_of};
ghost use Rattle.threaded_server.specs.Slots.{Balances, in_slots};
ghost use Rattle.broker_threads.specs.Streams.{Sight, offer_of, sight};

use crate::entry::Connection;
use crate::over::{Gone, Over};
use crate::overs::Overs;
use broker_threads::{Closed, Ended, Plan, StreamFate};
use ghost_state::GhostList;
use rawsocket::devices::{Sink, Source};
use realm_inbox::Shut;
use std::alloc::{AllocError, Global};
use std::snapshot::Snapshot;
use std::sync::Wait;
use std::sync::atomic::Ordering;
use std::thread::Threads;
use wamp_ids::{Conn, SEATS};

/// The streams that were lent: by seat those that are served, and what became of the others, which takes no bytes.
#[derive(Drop)]
pub struct Roster<
    I: Source + Drop + Send + 'static,
    O: Sink + Drop + Send + 'static,
    S: Shut + Send + 'static,
> {
    entries: Vec<Option<Connection<I, O, S>>>,
    lent: GhostList<(I, O)>,
    over: Overs<I, O, S>,
    ghost own: { All (λ slot. ForSome slot (λ entry. IsOfPlan over.plan.value entry))
        entries.items },
    ghost balance: { ∥ Balances (items_of lent) (map before_of (items_of over.streams))
        (map halves_of (in_slots entries.items)) ∥₁ },
    ghost found: { ∥ AllFound (items_of lent) (items_of over.streams) ∥₁ },
}

impl<
    I: Source + Drop + Send + 'static,
    O: Sink + Drop + Send + 'static,
    S: Shut + Send + 'static,
> Roster<I, O, S> {
    /// Nobody is served, and nothing was lent.
    pub fn new(alloc: Global, plan: &Plan) -> Result<Roster<I, O, S>, AllocError>
        ensures plan { IfOk result (λ r. r.over.plan.value ≡ plan.now) }
        ensures lent { IfOk result (λ r. items_of r.lent ≡ []) }
        ensures over { IfOk result (λ r. items_of r.over.streams ≡ []) }
        ensures none { IfOk result (λ r. All (λ slot. slot ≡ None) r.entries.items) }
        ensures long { IfOk result (λ r. length r.entries.items ≡ 256) }
    {
        Ok(Roster {
            entries: no_entries(alloc)?,
            lent: GhostList::new(),
            over: Overs::new(plan),
        })
    }

    /// How many places there are.
    pub fn places(&self) -> usize
        ensures { result ≡ length self.now.entries.items }
    {
        self.entries.len()
    }

    /// Whether the connection at this place is over, but for the end of its thread.
    pub fn is_over(&self, place: usize) -> bool {
        match self.entries.get(place) {
            Some(Some(entry)) => entry.shared.is_over.load(Ordering::SeqCst),
            _ => false,
        }
    }

    /// Those that are served.
    pub fn entries(&self) -> &[Option<Connection<I, O, S>>] {
        &self.entries
    }

    /// A stream is served from now on, at a place that is free.
    pub fn seat(&mut self, place: usize, halves: Snapshot<(I, O)>, entry: Connection<I, O, S>)
        requires free { slice_get self.old.entries.items place ≡ Some None }
        requires plan { IsOfPlan self.old.over.plan.value entry }
        requires halves { halves.value ≡ halves_of entry }
        ensures plan { self.new.over.plan ≡ self.old.over.plan }
        ensures lent { items_of self.new.lent ≡ items_of self.old.lent ++ halves_of entry ∷ [] }
        ensures over { items_of self.new.over.streams ≡ items_of self.old.over.streams }
        ensures entries { self.new.entries.items
            ≡ set self.old.entries.items place (Some entry) }
    {
        self.lent.add(halves);
        self.entries[place] = Some(entry);
    }

    /// A stream that was lent isn't served.
    pub fn pass(&mut self, halves: Snapshot<(I, O)>, over: Snapshot<Over<I, O, S>>)
        requires halves { halves.value ≡ before_of over.value }
        requires went { Went
            (sight I.seen O.seen)
            (offer_of self.old.over.plan.value) over.value }
        requires found { Found (items_of self.old.lent ++ halves.value ∷ [])
            (length (items_of self.old.over.streams)) over.value }
        ensures plan { self.new.over.plan ≡ self.old.over.plan }
        ensures lent { items_of self.new.lent ≡ items_of self.old.lent ++ halves.value ∷ [] }
        ensures over { items_of self.new.over.streams
            ≡ items_of self.old.over.streams ++ over.value ∷ [] }
        ensures entries { self.new.entries ≡ self.old.entries }
    {
        self.lent.add(halves);
        self.over.add(over);
    }

    /// A stream that was lent is let go of, from which nothing was read, and to which nothing was written.
    pub fn let_go(&mut self, halves: (I, O)) -> Gone<I, O>
        ensures plan { self.new.over.plan ≡ self.old.over.plan }
        ensures lent { items_of self.new.lent ≡ items_of self.old.lent ++ halves ∷ [] }
        ensures over { AddsUntouched (items_of self.old.over.streams)
            (items_of self.new.over.streams) halves }
        ensures entries { self.new.entries ≡ self.old.entries }
        ensures source { result.source.last.value ≡ halves.0 }
        ensures sink { result.sink.last.value ≡ halves.1 }
        ensures fate { result.fate ≡ StreamFate.NoMemory }
    {
        let over = Over::Untouched(Snapshot::of(&halves));
        self.pass(Snapshot::of(&halves), Snapshot::of(&over));
        let (source, sink) = halves;
        Gone {
            source: Closed::of(source),
            sink: Closed::of(sink),
            fate: StreamFate::NoMemory,
        }
    }

    /// Waits for the reader of the connection at this place, if there is one, and gives back what that gives.
    pub fn join<R: Threads + Wait>(
        &mut self,
        rt: &R,
        place: usize,
    ) -> Option<(Conn, Ended<I, O, S>)>
        ensures plan { self.new.over.plan ≡ self.old.over.plan }
        ensures lent { items_of self.new.lent ≡ items_of self.old.lent }
        ensures over { MatchOption result ((items_of self.new.over.streams
            ≡ items_of self.old.over.streams)
            × (self.new.entries.items ≡ self.old.entries.items))
            (λ r. Leaves (sight I.seen O.seen)
            (slice_get self.old.entries.items place) r.0 r.1 (items_of self.old.over.streams)
            (items_of self.new.over.streams)) }
        ensures entries { self.new.entries.items ≡ set self.old.entries.items place None }
    {
        let slot = self.entries.get_mut(place)?;
        let entry = match slot.take() {
            Some(entry) => entry,
            None => return None,
        };
        let Connection {
            conn,
            shared: _,
            began,
            reader,
        } = entry;
        let ended = reader.join(rt);
        let over = Over::Seated(began, Snapshot::of(&ended));
        self.over.add(Snapshot::of(&over));
        Some((conn, ended))
    }

    /// Nobody is served any more: each stream that was lent is over.
    pub fn shows_all_over(&self)
        requires { All (λ slot. slot ≡ None) self.now.entries.items }
        ensures { ∥ AllWent (sight I.seen O.seen)
            (offer_of self.now.over.plan.value) (items_of self.now.lent)
            (items_of self.now.over.streams) ∥₁ }
    {
        self.over.shows();
        let _ = &self.lent;
    }
}

// A place for each seat, and nobody there.
fn no_entries<
    I: Source + Drop + Send + 'static,
    O: Sink + Drop + Send + 'static,
    S: Shut + Send + 'static,
>(alloc: Global) -> Result<Vec<Option<Connection<I, O, S>>>, AllocError>
    ensures none { IfOk result (λ v. All (λ slot. slot ≡ None) v.items) }
    ensures long { IfOk result (λ v. length v.items ≡ 256) }
{
    let mut entries = Vec::with_capacity(alloc, SEATS as usize)?;
    for _place in 0..SEATS {
        entries.push(None)?;
    }
    Ok(entries)
}
