//! The connections that are served, and their seats.
ghost use Rattle.std.specs.Coded.{codes};
ghost use Rattle.std.specs.Prelude.{◌≡◌, ◌<◌, ◌+◌, ℕ, [], ◌∷◌, ◌++◌, All, None, Some, IfOk, IfSome, OnOk, length, set};
ghost use Rattle.threaded_server.specs.Seats.{free_at, given_back};
ghost use Rattle.ghost_state.specs.GhostList.{items_of};
ghost use Rattle.message_tree.specs.Code.{data_code, entries_code};
ghost use Rattle.realm.specs.body.HistoryCode.{history_code};
ghost use Rattle.std.specs.Arc.{arc_value};
ghost use Rattle.realm_inbox.specs.EndViews.{AreNewSeats, inbox_of, posted};
ghost use Rattle.threaded_server.specs.Conns.{Numbered, conns_of};
ghost use Rattle.broker_threads.specs.Courses.{fate_of, seen_of, sink_of};
ghost use Rattle.threaded_server.specs.SeatRules.{AscendAtSeats, TellsRefusal};
ghost use Rattle.threaded_server.specs.Histories.{start_of};
ghost use Rattle.threaded_server.specs.Overs.{AllWent, GoesOver};
ghost use Rattle.threaded_server.specs.Posters.{Stand, lists_at, lists_of};
ghost use Rattle.threaded_server.specs.Posts.{AllSay, ReceivedPosted, posts_at};
ghost use Rattle.threaded_server.specs.Realms.{IsAtHome, TakesIn, places_of, realms_of, shown};
ghost use Rattle.threaded_server.specs.Stopping.{AllCover, AreDoorsOf, EarlyHandled, NoneStopped, StopsCover, door_view, doors_of, stops_of};
ghost use Rattle.threaded_server.specs.Seating.{AreSeated};
ghost use Rattle.broker_threads.specs.Streams.{offer_of, sight};
ghost use Rattle.threaded_server.specs.Table.{IsUnused};
ghost use Rattle.threaded_server.specs.TrailCode.{trail_code};
ghost use Rattle.threaded_server.specs.Ties.{IsBegunBy, IsRun, OverKept, OverTied};

use crate::acceptor::Parts;
use crate::doors::Doors;
use crate::over::{Gone, Over};
use crate::poster_table::PosterTable;
use crate::realm_handle::RealmHandle;
use crate::realm_run::RealmRun;
use crate::realms::Realms;
use crate::roster::Roster;
use crate::seats::Seats;
use crate::starting::{Newcomer, Started, start};
use broker_threads::told::{tell_accepted, tell_refused, tell_unserved};
use broker_threads::{Closed, Ended, Fate, Plan, SeatTable, StreamFate};
use ghost_state::GhostList;
use log_lines::{CloseReason, ConnectionRefusal};
use rawsocket::devices::{Sink, Source, Turns, send};
use rawsocket::no_seat_reply;
use realm_inbox::{Door, Seat, Shut};
use std::alloc::{AllocError, Global};
use std::snapshot::Snapshot;
use std::sync::{Arc, Wait};
use std::thread::Threads;
use std::time::Clock;
use wamp_ids::{Conn, seat_index};

/// A stream that came, taken apart.
#[derive(Drop)]
pub struct Arrival<I, O, S> {
    pub parts: Parts<I, O, S>,
    /// What its handle marks.
    pub fate: Arc<Fate>,
    /// Who is at its other end, in words; nothing where nobody is told.
    pub peer: Option<String>,
}

/// The connections that are served. The accepting thread alone has it.
#[derive(Drop)]
pub struct ConnectionTable<
    I: Source + Drop + Send + 'static,
    O: Sink + Drop + Send + 'static,
    S: Shut + Send + 'static,
> {
    pub alloc: Global,
    pub plan: Arc<Plan>,
    pub marks: Arc<SeatTable>,
    realms: Realms<S>,
    doors: Doors<S>,
    posters: PosterTable<S>,
    seats: Seats,
    // By seat, from 0.
    roster: Roster<I, O, S>,
    ghost same: { arc_value plan ≡ roster.over.plan.value },
    ghost free: { Stand (places_of (realms_of realms)) (lists_of posters) } by { Prim.hlevel (codes, history_code, data_code, entries_code, trail_code) },
    ghost served: { Stand (places_of (realms_of realms)) (lists_at roster.entries.items) } by { Prim.hlevel (codes, history_code, data_code, entries_code, trail_code) },
    ghost say: { ∥ AllSay posted (length roster.over.plan.value.realms.items)
        (length (realms_of realms))
        (λ realm number. posts_at realm number (items_of roster.over.streams))
        (lists_of posters) (lists_at roster.entries.items) ∥₁ },
    ghost numbered: { Numbered seats roster.entries.items (items_of roster.over.streams) },
    ghost seated: { AreSeated seats roster.entries.items (items_of roster.lent) },
    ghost kept: { ∥ All (λ over. OverKept (realms_of realms) over)
        (items_of roster.over.streams) ∥₁ },
    ghost in_order: { AreDoorsOf (realms_of realms) (doors_of doors) } by { Prim.hlevel (codes, history_code, data_code, entries_code, trail_code) },
    ghost shown: { ∥ AllCover (items_of roster.over.streams) (doors_of doors) ∥₁ },
    ghost began: { All (λ realm. IsBegunBy roster.over.plan.value realm) (realms_of realms) } by { Prim.hlevel (codes, history_code, data_code, entries_code, trail_code) },
}

impl<
    I: Source + Drop + Send + 'static,
    O: Sink + Drop + Send + 'static,
    S: Shut + Send + 'static,
> ConnectionTable<I, O, S> {
    /// Nobody is served, and there are no realms yet.
    pub fn new(alloc: Global, plan: Plan) -> Result<ConnectionTable<I, O, S>, AllocError>
        ensures plan { IfOk result (λ t. t.roster.over.plan.value ≡ plan) }
        ensures realms { IfOk result (λ t. realms_of t.realms ≡ []) }
        ensures lent { IfOk result (λ t. items_of t.roster.lent ≡ []) }
        ensures unused { IfOk result (λ t.
            IsUnused t.roster.entries.items (items_of t.roster.over.streams)) }
        ensures stops { IfOk result (λ t. NoneStopped (stops_of t.doors)) }
    {
        let realms = Realms::with_capacity(alloc, plan.realms.len())?;
        let doors = Doors::with_capacity(alloc, plan.realms.len())?;
        let plan = Arc::new(alloc, plan)?;
        let roster = Roster::new(alloc, &plan)?;
        let posters = PosterTable::new(alloc, plan.realms.len())?;
        Ok(ConnectionTable {
            alloc,
            realms,
            doors,
            posters,
            plan,
            marks: Arc::new(alloc, SeatTable::new(alloc)?)?,
            seats: Seats::new(),
            roster,
        })
    }

    /// How many connections there can be at a time.
    pub fn places(&self) -> usize
        ensures { result ≡ length self.now.roster.entries.items }
    {
        self.roster.places()
    }

    /// Joins the reader at this place, from 0, if it is over, and frees its seat. What is left of its stream, where it was.
    pub fn reap<R: Threads + Wait>(&mut self, rt: &R, place: usize) -> Option<Gone<I, O>>
        ensures stops { stops_of self.new.doors ≡ stops_of self.old.doors }
        ensures plan { self.new.roster.over.plan ≡ self.old.roster.over.plan }
        ensures realms { length (realms_of self.new.realms) ≡ length (realms_of self.old.realms) }
        ensures lent { items_of self.new.roster.lent ≡ items_of self.old.roster.lent }
        ensures over { GoesOver (items_of self.old.roster.over.streams)
            (items_of self.new.roster.over.streams) result }
    {
        if self.roster.is_over(place) {
            self.release(rt, place)
        } else {
            None
        }
    }

    /// Waits for the reader at this place, if there is one, and frees its seat. What is left of its stream, where there was one.
    pub fn release<R: Threads + Wait>(&mut self, rt: &R, place: usize) -> Option<Gone<I, O>>
        ensures stops { stops_of self.new.doors ≡ stops_of self.old.doors }
        ensures plan { self.new.roster.over.plan ≡ self.old.roster.over.plan }
        ensures realms { length (realms_of self.new.realms) ≡ length (realms_of self.old.realms) }
        ensures lent { items_of self.new.roster.lent ≡ items_of self.old.roster.lent }
        ensures over { GoesOver (items_of self.old.roster.over.streams)
            (items_of self.new.roster.over.streams) result }
        ensures entries { self.new.roster.entries.items
            ≡ set self.old.roster.entries.items place None }
    {
        let (conn, mut left) = self.roster.join(rt, place)?;
        self.doors.see(&mut left.posters);
        let (gone, _) = take_in(rt, &mut self.realms, &mut self.posters, place, left);
        vacate(&self.marks, &mut self.seats, conn);
        Some(gone)
    }

    /// How many realms there are.
    pub fn count_realms(&self) -> usize {
        self.realms.len()
    }

    /// One realm more, whose door and whose seats these are.
    ///
    /// # Errors
    /// Where memory was refused.
    pub fn add_realm<R: Threads + Wait>(
        &mut self,
        rt: &R,
        handle: RealmHandle<S>,
        door: Door<S>,
        seats: Vec<Seat<S>>,
    ) -> Result<(), AllocError>
        requires within { length (realms_of self.old.realms)
            < length self.old.roster.over.plan.value.realms.items }
        requires unused { IsUnused self.old.roster.entries.items
            (items_of self.old.roster.over.streams) }
        requires began { IsBegunBy self.old.roster.over.plan.value (shown handle) }
        requires door { ((door_view door).inbox ≡ inbox_of (shown handle).work.inbox)
            × ((door_view door).shown ≡ []) × ((door_view door).told ≡ []) }
        requires count { length seats.items ≡ 256 }
        requires seats { AreNewSeats (inbox_of (shown handle).work.inbox) seats.items }
        ensures roster { self.new.roster ≡ self.old.roster }
        ensures one { OnOk result (length (realms_of self.new.realms)
            ≡ length (realms_of self.old.realms) + 1) }
        ensures stops { NoneStopped (stops_of self.old.doors)
            → NoneStopped (stops_of self.new.doors) }
    {
        let place = self.realms.len();
        if let Err(handle) = self.realms.add(handle) {
            handle.join(rt, door);
            return Err(AllocError);
        }
        self.doors.add(rt, door);
        self.posters.add_realm(place, seats);
        Ok(())
    }

    /// Stops the realms' actors, and waits until each has marked whose sessions it holds. What the streams posted that are over is handled
    /// before.
    pub fn stop_actors<R: Wait>(&mut self, rt: &R)
        ensures roster { self.new.roster ≡ self.old.roster }
        ensures realms { realms_of self.new.realms ≡ realms_of self.old.realms }
        ensures stops { NoneStopped (stops_of self.old.doors)
            → ∥ StopsCover (items_of self.old.roster.over.streams) (stops_of self.new.doors) ∥₁ }
    {
        self.doors.stop(rt);
        self.realms.await_marks(rt);
    }

    /// Nobody is served any more: waits for the realms' actors' threads. How each realm ran, and that each stream that was lent is over,
    /// as it should be.
    pub fn finish<R: Threads + Wait>(self, rt: &R) -> GhostList<RealmRun<S>>
        requires { All (λ slot. slot ≡ None) self.roster.entries.items }
        ensures runs { All
            (λ run. IsRun (start_of self.roster.over.plan.value.config.value) run)
            (items_of result) }
        ensures realms { length (items_of result) ≡ length (realms_of self.realms) }
        ensures received { ∥ ReceivedPosted (items_of result)
            (items_of self.roster.over.streams) ∥₁ }
        ensures handled { ∥ EarlyHandled (items_of result) (items_of self.roster.over.streams)
            (stops_of self.doors) ∥₁ }
        ensures ascend { AscendAtSeats (conns_of (items_of self.roster.over.streams)) }
        ensures tied { ∥ All (λ over. OverTied (items_of result) over)
            (items_of self.roster.over.streams) ∥₁ }
        ensures went { ∥ AllWent
            (sight I.seen O.seen)
            (offer_of self.roster.over.plan.value) (items_of self.roster.lent)
            (items_of self.roster.over.streams) ∥₁ }
    {
        let ConnectionTable {
            realms,
            doors,
            posters,
            roster,
            ..
        } = self;
        roster.shows_all_over();
        realms.join(rt, doors, posters)
    }

    /// Ends the streams of those whose sessions no actor held at its end.
    pub fn shut_unheld<R: Wait>(&self, rt: &R) {
        for entry in self.roster.entries().iter().flatten() {
            if !self.marks.is_held(entry.conn) {
                entry.shared.end_stream(rt);
            }
        }
    }

    /// Starts the reader of a stream at the lowest free seat. Where none is free its client is told so, and where memory or a thread is
    /// refused it is told nothing; the stream is closed then, and this is what is left of it.
    pub fn admit<R: Threads + Wait + Clock + Copy + Send + 'static>(
        &mut self,
        rt: R,
        arrival: Arrival<I, O, S>,
    ) -> Option<Gone<I, O>>
        ensures stops { stops_of self.new.doors ≡ stops_of self.old.doors }
        ensures plan { self.new.roster.over.plan ≡ self.old.roster.over.plan }
        ensures realms { length (realms_of self.new.realms) ≡ length (realms_of self.old.realms) }
        ensures lent { items_of self.new.roster.lent ≡ items_of self.old.roster.lent
            ++ (arrival.parts.source, arrival.parts.sink) ∷ [] }
        ensures over { GoesOver (items_of self.old.roster.over.streams)
            (items_of self.new.roster.over.streams) result }
    {
        let Arrival { parts, fate, peer } = arrival;
        let Ok(conn) = self.seats.take() else {
            tell_refused(&rt, &self.plan.log, &peer, ConnectionRefusal::NoSeat);
            return Some(self.turn_away(parts));
        };
        tell_accepted(&rt, &self.plan, conn, &peer);
        let place = seat_index(conn);
        let posters = self.posters.take(conn);
        self.marks.sits(conn);
        let newcomer = Newcomer {
            conn,
            parts,
            fate,
            posters,
        };
        match start(rt, self.alloc, &self.plan, newcomer) {
            Started::Runs(halves, entry) => {
                self.roster.seat(place, halves, entry);
                None
            }
            Started::Ended(halves, began, mut ended) => {
                let over = Over::Seated(began, Snapshot::of(&ended));
                self.roster.pass(halves, Snapshot::of(&over));
                self.doors.see(&mut ended.posters);
                let (gone, why) = take_in(&rt, &mut self.realms, &mut self.posters, place, ended);
                vacate(&self.marks, &mut self.seats, conn);
                tell_unserved(&rt, &self.plan, conn, why);
                Some(gone)
            }
            Started::Refused(halves, posters) => {
                self.posters.put(place, posters);
                let gone = self.roster.let_go(halves);
                vacate(&self.marks, &mut self.seats, conn);
                tell_unserved(&rt, &self.plan, conn, CloseReason::NoMemory);
                Some(gone)
            }
        }
    }

    /// A stream is let go of, from which nothing was read, and to which nothing was written: memory was refused for it.
    pub fn let_go(&mut self, halves: (I, O)) -> Gone<I, O>
        ensures stops { stops_of self.new.doors ≡ stops_of self.old.doors }
        ensures plan { self.new.roster.over.plan ≡ self.old.roster.over.plan }
        ensures realms { length (realms_of self.new.realms) ≡ length (realms_of self.old.realms) }
        ensures lent { items_of self.new.roster.lent
            ≡ items_of self.old.roster.lent ++ halves ∷ [] }
        ensures over { GoesOver (items_of self.old.roster.over.streams)
            (items_of self.new.roster.over.streams) (Some result) }
    {
        self.roster.let_go(halves)
    }

    // Tells the client of a stream that no seat is free, and lets go of it.
    fn turn_away(&mut self, parts: Parts<I, O, S>) -> Gone<I, O>
        requires full { (place : ℕ) → place < 256 → free_at self.old.seats place ≡ None }
        ensures stops { stops_of self.new.doors ≡ stops_of self.old.doors }
        ensures plan { self.new.roster.over.plan ≡ self.old.roster.over.plan }
        ensures realms { length (realms_of self.new.realms) ≡ length (realms_of self.old.realms) }
        ensures lent { items_of self.new.roster.lent ≡ items_of self.old.roster.lent
            ++ (parts.source, parts.sink) ∷ [] }
        ensures over { GoesOver (items_of self.old.roster.over.streams)
            (items_of self.new.roster.over.streams) (Some result) }
    {
        let Parts { source, sink, shut } = parts;
        let halves = (source, sink);
        let (lent, before) = (Snapshot::of(&halves), Snapshot::of(&halves));
        let (source, mut sink) = halves;
        tell_no_seat(&mut sink);
        let over = Over::TurnedAway(before, Snapshot::of(&source), Snapshot::of(&sink));
        self.roster.pass(lent, Snapshot::of(&over));
        shut.shut();
        Gone {
            source: Closed::of(source),
            sink: Closed::of(sink),
            fate: StreamFate::NoSeat,
        }
    }
}

// Takes in what the reader at this place gave back: what its writer saw of its realm's history, and its seat's posters. What is left of its
// stream, and why that was closed.
fn take_in<
    R: Wait,
    I: Source + Drop + Send + 'static,
    O: Sink + Drop + Send + 'static,
    S: Shut + Send + 'static,
>(
    rt: &R,
    realms: &mut Realms<S>,
    posters: &mut PosterTable<S>,
    place: usize,
    ended: Ended<I, O, S>,
) -> (Gone<I, O>, CloseReason)
    requires seen { IfSome (seen_of ended.course) (λ seen. IsAtHome (realms_of realms.old) seen) }
    ensures realms { TakesIn (realms_of realms.old) (seen_of ended.course) (realms_of realms.new) }
    ensures posters { lists_of posters.new
        ≡ set (lists_of posters.old) place (Some ended.posters.items) }
    ensures source { result.0.source ≡ ended.source }
    ensures sink { result.0.sink ≡ sink_of ended.course }
    ensures fate { result.0.fate ≡ fate_of ended.course }
{
    let Ended {
        source,
        posters: back,
        course,
        reason,
    } = ended;
    let fate = course.fate();
    let (sink, seen) = course.into_parts();
    realms.take_in(rt, seen);
    posters.put(place, back);
    (Gone { source, sink, fate }, reason)
}

// A connection's seat is free again, whose posters are back.
fn vacate(marks: &SeatTable, seats: &mut Seats, conn: Conn)
    ensures { seats.new ≡ given_back seats.old conn }
{
    marks.leaves(conn);
    seats.give_back(conn);
}

// Tells a client that no seat is free.
fn tell_no_seat<O: Sink>(sink: &mut O)
    ensures told { TellsRefusal (O.seen sink.old) (O.seen sink.new) }
    ensures same { (O.seen sink.new).name ≡ (O.seen sink.old).name }
{
    let _ = send(sink, &no_seat_reply(), &mut Turns::new());
}
