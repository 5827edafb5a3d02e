//! What posts at each seat, while no connection is there.
ghost use Rattle.std.specs.Prelude.{◌≡◌, ◌≢◌, ◌⊎◌, ◌≤◌, ◌<◌, ◌+◌, ◌-◌, ℕ, None, Some, IfOk, MatchOption, length, option_map, replicate, set, slice_get};
ghost use Rattle.std.specs.Option.{ForSome, option_flatten};
ghost use mathlib.Core.List.{IsPrefix};
ghost use Rattle.realm_inbox.specs.EndViews.{AreNewSeats, inbox_of, inbox_of_poster, inbox_of_seat, posted, posted_at, poster_conn, received, seat_number};
ghost use Rattle.realm_inbox.specs.Ends.{Place};
ghost use Rattle.realm_inbox.specs.Seats.{at_seat};
ghost use Rattle.threaded_server.specs.Posters.{AllGain, AreOfSeat, GivesUp, IsOfInbox, IsTaken, Puts, Relabels, RelabelsAt, lists_of, poster_at, poster_in, seen_at, trace_at, traces, traces_of};
ghost use Rattle.wamp_ids.specs.Numbers.{seat_of};

use broker_threads::handover::{Posters, put_poster, take_poster};
use realm_inbox::{Inbox, Poster, Seat, Shut};
use std::alloc::{AllocError, Global};
use std::sync::Wait;
use wamp_ids::{Conn, SEATS, seat_index};

/// By seat the posters of the next connection there, one of each realm, in the order of the realms.
#[derive(Drop)]
pub struct PosterTable<S: Shut + 'static> {
    // By seat, from 0. Those that aren't here are at a connection.
    slots: Vec<Option<Posters<S>>>,
}

impl<S: Shut + 'static> PosterTable<S> {
    /// Of so many realms, none of which is there yet.
    ///
    /// # Errors
    /// Where memory was refused.
    pub fn new(alloc: Global, realms: usize) -> Result<PosterTable<S>, AllocError>
        ensures { IfOk result (λ table. lists_of table
            ≡ replicate 256 (Some (replicate realms None))) }
    {
        let mut slots = Vec::with_capacity(alloc, SEATS as usize)?;
        for _place in 0..SEATS {
            slots.push(Some(no_posters(alloc, realms)?))?;
        }
        Ok(PosterTable { slots })
    }

    /// The seats of one realm more, which is at this place.
    pub fn add_realm(&mut self, realm: usize, mut seats: Vec<Seat<S>>)
        requires { length seats.items ≡ 256 }
        ensures { (inbox : Place S) → AreNewSeats inbox seats.items
            → AllGain inbox realm (lists_of self.old) (lists_of self.new) }
    {
        for _done in 0..SEATS {
            if let Some(at) = seats.pop() {
                self.add_seat(realm, at);
            }
        }
    }

    fn add_seat(&mut self, realm: usize, at: Seat<S>)
        ensures { Puts realm at (lists_of self.old) (lists_of self.new) }
    {
        let poster = poster_of(at);
        self.put_at(seat_index(poster.conn()), realm, poster);
    }

    fn put_at(&mut self, place: usize, realm: usize, poster: Poster<S>)
        ensures { lists_of self.new ≡ set (lists_of self.old) place
            (option_map (λ posters. set posters realm (Some poster))
            (option_flatten (slice_get (lists_of self.old) place))) }
    {
        if let Some(slot) = self.slots.get_mut(place) {
            put_in(slot, realm, poster);
        }
    }

    /// The posters of a connection, whose seat is free no longer.
    pub fn take(&mut self, conn: Conn) -> Posters<S>
        requires there { option_flatten (slice_get (lists_of self.old) (seat_of conn - 1)) ≢ None }
        requires seat { ForSome (slice_get (lists_of self.old) (seat_of conn - 1))
            (λ slot. ForSome slot (λ posters. AreOfSeat (seat_of conn) posters)) }
        ensures { IsTaken conn (lists_of self.old) result.items (lists_of self.new) }
    {
        let Some(mut posters) = self.take_at(seat_index(conn)) else {
            unreachable!()
        };
        relabel(&mut posters, conn);
        posters
    }

    // Those of the seat at this place, which is free no longer. None where it isn't free.
    fn take_at(&mut self, place: usize) -> Option<Posters<S>>
        ensures { MatchOption result (option_flatten (slice_get (lists_of self.old) place) ≡ None)
            (λ posters. (slice_get (lists_of self.old) place ≡ Some (Some posters.items))
            × (lists_of self.new ≡ set (lists_of self.old) place None)) }
    {
        self.slots.get_mut(place)?.take()
    }

    /// Frees the seat at this place, from 0, whose posters these are.
    pub fn put(&mut self, place: usize, posters: Posters<S>)
        ensures { lists_of self.new ≡ set (lists_of self.old) place (Some posters.items) }
    {
        if let Some(slot) = self.slots.get_mut(place) {
            *slot = Some(posters);
        }
    }

    /// Receives what is left in the inbox of the realm at this place, and drops it, until what was received of each seat is what was posted
    /// there by the realm's poster of that seat. Those are given up.
    pub fn drain_inbox<R: Wait>(&mut self, rt: &R, realm: usize, inbox: &mut Inbox<S>)
        requires here { (k : ℕ) (p : Poster S) → poster_at (lists_of self.old) k realm ≡ Some p
            → IsOfInbox (inbox_of inbox.old) (k + 1) p }
        ensures others { (k i : ℕ) → i ≢ realm
            → trace_at (lists_of self.new) k i ≡ trace_at (lists_of self.old) k i }
        ensures received { (k : ℕ) (p : Poster S) → k < 256
            → poster_at (lists_of self.old) k realm ≡ Some p
            → at_seat (k + 1) (received inbox.new) ≡ posted p }
        ensures more { IsPrefix (received inbox.old) (received inbox.new) }
    {
        self.drain_seats(rt, realm, inbox);
        self.compare(realm, inbox);
    }

    // Receives until all that was posted at each seat was received of it.
    fn drain_seats<R: Wait>(&mut self, rt: &R, realm: usize, inbox: &mut Inbox<S>)
        requires here { (k : ℕ) (p : Poster S) → poster_at (lists_of self.old) k realm ≡ Some p
            → IsOfInbox (inbox_of inbox.old) (k + 1) p }
        ensures traces { traces_of (lists_of self.new) ≡ traces_of (lists_of self.old) }
        ensures received { (k : ℕ) (p : Poster S) → k < 256
            → poster_at (lists_of self.old) k realm ≡ Some p
            → IsPrefix (posted p) (at_seat (k + 1) (received inbox.new)) }
        ensures more { IsPrefix (received inbox.old) (received inbox.new) }
        ensures same { inbox_of inbox.new ≡ inbox_of inbox.old }
    {
        for place in 0..SEATS as usize {
            self.drain_at(rt, realm, place, inbox);
        }
    }

    fn drain_at<R: Wait>(&mut self, rt: &R, realm: usize, place: usize, inbox: &mut Inbox<S>)
        requires here { (p : Poster S) → poster_at (lists_of self.old) place realm ≡ Some p
            → IsOfInbox (inbox_of inbox.old) (place + 1) p }
        ensures traces { traces_of (lists_of self.new) ≡ traces_of (lists_of self.old) }
        ensures received { (p : Poster S) → poster_at (lists_of self.old) place realm ≡ Some p
            → at_seat (place + 1) (received inbox.new) ≡ posted p }
        ensures more { IsPrefix (received inbox.old) (received inbox.new) }
        ensures same { inbox_of inbox.new ≡ inbox_of inbox.old }
    {
        if let Some(slot) = self.slots.get_mut(place) {
            drain_slot(rt, slot, realm, inbox);
        }
    }

    // Compares the inbox of the realm at this place with the realm's poster of each seat, and gives these up: what was received of a
    // seat begins what was posted there.
    fn compare(&mut self, realm: usize, inbox: &mut Inbox<S>)
        requires here { (k : ℕ) (p : Poster S) → poster_at (lists_of self.old) k realm ≡ Some p
            → IsOfInbox (inbox_of inbox.old) (k + 1) p }
        ensures others { (k i : ℕ) → i ≢ realm
            → poster_at (lists_of self.new) k i ≡ poster_at (lists_of self.old) k i }
        ensures received { (k : ℕ) (p : Poster S) → k < 256
            → poster_at (lists_of self.old) k realm ≡ Some p
            → IsPrefix (at_seat (k + 1) (received inbox.old)) (posted p) }
        ensures same { received inbox.new ≡ received inbox.old }
    {
        for place in 0..SEATS as usize {
            self.compare_at(place, realm, inbox);
        }
    }

    fn compare_at(&mut self, place: usize, realm: usize, inbox: &mut Inbox<S>)
        requires here { (p : Poster S) → poster_at (lists_of self.old) place realm ≡ Some p
            → IsOfInbox (inbox_of inbox.old) (place + 1) p }
        ensures others { (k i : ℕ) → (k ≢ place) ⊎ (i ≢ realm)
            → poster_at (lists_of self.new) k i ≡ poster_at (lists_of self.old) k i }
        ensures received { (p : Poster S) → poster_at (lists_of self.old) place realm ≡ Some p
            → IsPrefix (at_seat (place + 1) (received inbox.old)) (posted p) }
        ensures same { (received inbox.new ≡ received inbox.old)
            × (inbox_of inbox.new ≡ inbox_of inbox.old) }
    {
        if let Some(mut poster) = self.give_up(place, realm) {
            inbox.compare(&mut poster);
        }
    }

    // The poster of a realm at a seat, which is here no longer.
    fn give_up(&mut self, place: usize, realm: usize) -> Option<Poster<S>>
        ensures { GivesUp (lists_of self.old) place realm result (lists_of self.new) }
    {
        let slot = self.slots.get_mut(place)?;
        match slot {
            Some(posters) => take_poster(posters, realm),
            None => None,
        }
    }
}

// Of no realm.
fn no_posters<S: Shut>(alloc: Global, realms: usize) -> Result<Posters<S>, AllocError>
    ensures { IfOk result (λ posters. posters.items ≡ replicate realms None) }
{
    let mut posters = Vec::with_capacity(alloc, realms)?;
    for _realm in 0..realms {
        posters.push(None)?;
    }
    Ok(posters)
}

// The poster of a realm at a seat is put in its place, if the others are there.
fn put_in<S: Shut>(slot: &mut Option<Posters<S>>, realm: usize, poster: Poster<S>)
    ensures { option_map (λ posters. posters.items) slot.new
        ≡ option_map (λ posters. set posters realm (Some poster))
        (option_map (λ posters. posters.items) slot.old) }
{
    if let Some(posters) = slot {
        put_poster(posters, realm, poster);
    }
}

// Receives until all that was posted at a seat, by its poster of the realm at this place, if that is here, was received of it.
fn drain_slot<S: Shut, R: Wait>(
    rt: &R,
    slot: &mut Option<Posters<S>>,
    realm: usize,
    inbox: &mut Inbox<S>,
)
    requires here { (p : Poster S)
        → poster_in (option_map (λ posters. posters.items) slot.old) realm ≡ Some p
        → inbox_of inbox.old ≡ inbox_of_poster p }
    ensures traces { option_map traces (option_map (λ posters. posters.items) slot.new)
        ≡ option_map traces (option_map (λ posters. posters.items) slot.old) }
    ensures received { (p : Poster S)
        → poster_in (option_map (λ posters. posters.items) slot.old) realm ≡ Some p
        → at_seat (seat_of (poster_conn p)) (received inbox.new) ≡ posted p }
    ensures more { IsPrefix (received inbox.old) (received inbox.new) }
    ensures same { inbox_of inbox.new ≡ inbox_of inbox.old }
{
    if let Some(posters) = slot {
        drain_by(rt, posters, realm, inbox);
    }
}

fn drain_by<S: Shut, R: Wait>(rt: &R, posters: &mut Posters<S>, realm: usize, inbox: &mut Inbox<S>)
    requires here { (p : Poster S) → option_flatten (slice_get posters.old.items realm) ≡ Some p
        → inbox_of inbox.old ≡ inbox_of_poster p }
    ensures traces { traces posters.new.items ≡ traces posters.old.items }
    ensures received { (p : Poster S)
        → option_flatten (slice_get posters.old.items realm) ≡ Some p
        → at_seat (seat_of (poster_conn p)) (received inbox.new) ≡ posted p }
    ensures more { IsPrefix (received inbox.old) (received inbox.new) }
    ensures same { inbox_of inbox.new ≡ inbox_of inbox.old }
{
    if let Some(mut poster) = take_poster(posters, realm) {
        inbox.drain_beside(rt, &mut poster);
        put_poster(posters, realm, poster);
    }
}

// A seat's poster, of its first connection.
fn poster_of<S: Shut>(at: Seat<S>) -> Poster<S>
    ensures inbox { inbox_of_poster result ≡ inbox_of_seat at }
    ensures number { seat_of (poster_conn result) ≡ seat_number at }
    ensures posted { posted result ≡ posted_at at }
{
    let Some(conn) = Conn::new(at.number()) else {
        unreachable!()
    };
    match at.into_poster(conn) {
        Ok(poster) => poster,
        Err(_) => unreachable!(),
    }
}

// Makes the posters of a seat those of this connection.
fn relabel<S: Shut>(posters: &mut Posters<S>, conn: Conn)
    requires { AreOfSeat (seat_of conn) posters.old.items }
    ensures { Relabels conn posters.old.items posters.new.items }
{
    for realm in 0..posters.len() {
        relabel_at(posters, realm, conn);
    }
}

fn relabel_at<S: Shut>(posters: &mut Posters<S>, realm: usize, conn: Conn)
    requires within { realm < length posters.old.items }
    requires seat { AreOfSeat (seat_of conn) posters.old.items }
    ensures { RelabelsAt conn realm posters.old.items posters.new.items }
{
    let slot = &mut posters[realm];
    *slot = labelled(slot.take(), conn);
}

// The poster of a seat, as this connection's.
fn labelled<S: Shut>(poster: Option<Poster<S>>, conn: Conn) -> Option<Poster<S>>
    requires { ForSome poster (λ p. seat_of (poster_conn p) ≡ seat_of conn) }
    ensures seen { seen_at result ≡ seen_at poster }
    ensures conn { ForSome result (λ p. poster_conn p ≡ conn) }
{
    match poster {
        Some(poster) => match poster.into_seat().into_poster(conn) {
            Ok(poster) => Some(poster),
            Err(_) => unreachable!(),
        },
        None => None,
    }
}
