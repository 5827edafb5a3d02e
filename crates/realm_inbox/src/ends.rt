//! The ends of an inbox: seats with their posters, and the receiving end.
ghost use Rattle.std.specs.Prelude.{◌≡◌, ◌≢◌, ◌≤◌, [], ◌∷◌, ◌++◌, ◌+◌, length, true, IfSome, IfOk, IfErr, MatchOption, MatchResult};
ghost use Rattle.crossbeam_channel.specs.Claims.{view, IsSeatAt};
ghost use Rattle.crossbeam_channel.specs.Ends.{sends_on, receives_on};
ghost use Rattle.wamp_ids.specs.Numbers.{seat_of};
ghost use Rattle.ghost_state.specs.GhostList.{items_of};
ghost use Rattle.realm_inbox.specs.Seats.{IsNext, IsHomed, BringsHome, BringsOwn};
ghost use Rattle.realm_inbox.specs.Behind.{IsBehind};
ghost use Rattle.realm_inbox.specs.SeatLines.{IsDealt, waiting};
ghost use Rattle.realm_inbox.specs.Ends.{home_in, posted_in, received_in, is_seat, is_reader};

use crate::act::Act;
use crate::backlog::{Backlog, PostCount, Weight};
use crate::bells::{Bells, send_quietly};
use crate::letter::{Letter, Post};
use crate::rule::{InTurn, InboxView, Posts, Receives};
use crate::seat_lines::{SeatLines, place_of};
use crate::seat_turns::SeatTurns;
use crate::transport::Shut;
use crossbeam_channel::{Pass, RuledReceiver, RuledSender, TryRecvError};
use crossbeam_utils::sync::Parker;
use ghost_state::{GhostCount, GhostList};
use std::snapshot::Snapshot;
use std::sync::{Arc, Wait};
use wamp_ids::{Conn, seat};

pub(crate) type Sending<S> = RuledSender<Post<S>, InboxView<S>, InTurn>;

pub(crate) type Receiving<S> = RuledReceiver<Post<S>, InboxView<S>, InTurn>;

pub(crate) type Ticket<S> = Pass<Post<S>, InboxView<S>>;

/// The right to post at one seat, for one poster at a time. While it lives the inbox has a sender, also where no poster uses it.
///
/// Contracts see its number, what was posted there, each act with its connection, and which inbox it is of.
pub struct Seat<S: Shut> {
    pub(crate) number: u64,
    pub(crate) past: GhostList<(Conn, Act<S>)>,
    // How many acts these are.
    pub(crate) posted: GhostCount,
    // What was posted here and isn't handled yet.
    pub(crate) backlog: Arc<Backlog>,
    pub(crate) count: PostCount,
    pub(crate) sender: Sending<S>,
    pub(crate) bells: Bells,
    pub(crate) pass: Ticket<S>,
    ghost in_range: { (1 ≤ number) × (number ≤ 256) },
    ghost at: { IsSeatAt (sends_on sender) pass },
    ghost sits: { is_seat number (view pass) ≡ true },
    ghost told: { items_of past ≡ posted_in (view pass) },
    ghost counted: { posted ≡ length (posted_in (view pass)) },
}

/// Posts the acts of one connection at its seat. While it lives the inbox has a sender.
///
/// Contracts see its connection, what was posted at its seat, also by posters before it, as how many octets each act counted that it
/// posted itself, and how many came back to it.
#[derive(Drop)]
pub struct Poster<S: Shut> {
    pub(crate) conn: Conn,
    pub(crate) seat: Seat<S>,
    pub(crate) weights: GhostList<usize>,
    pub(crate) returned: GhostCount,
    ghost own: { seat_of conn ≡ seat.number },
}

// How many posts are taken from the channel at once.
const MOST_TAKEN: u32 = 4096;

/// The receiving end. Once it is gone, posts come back.
///
/// It gives posts as they come while none takes long. Behind a dear one it takes all that the channel has into a line for each seat,
/// and gives by turns: so what one client asks for, it waits for itself.
///
/// Contracts see what was given, the oldest first, how many posts may wait, and which inbox it is.
pub struct Inbox<S: Shut> {
    pub(crate) next: u64,
    pub(crate) receiver: Receiving<S>,
    pub(crate) lines: SeatLines<S>,
    pub(crate) given: GhostList<Post<S>>,
    pub(crate) turns: SeatTurns,
    pub(crate) parker: Parker,
    pub(crate) pass: Ticket<S>,
    ghost at: { IsSeatAt (receives_on receiver) pass },
    ghost reads: { is_reader next (view pass) ≡ true },
    ghost dealt: { ∥ IsDealt (home_in (view pass)) (received_in (view pass)) (items_of given)
        (waiting lines) ∥₁ },
}

impl<S: Shut> Inbox<S> {
    ghost use Rattle.realm_inbox.specs.EndViews.{received, capacity, posted, poster_conn, home_of, inbox_of, inbox_of_poster};

    /// Waits for a post. It is the next of its seat: what had been posted there before it is exactly what was received of the seat.
    /// A Join brings an outbox of the inbox's chronicle, or one for which none is picked. A stop comes behind all that its door was shown
    /// ([`Door::sees`](crate::Door::sees)): that was received before. `None` once each sender is gone: the door,
    /// each poster and each seat, and nothing waits. It wakes who waits for room: with each post that it gives, and before it waits
    /// itself.
    ///
    /// No post is missed, nor that the last sender is gone: it says that it is about to sleep, looks once more, and then sleeps; a
    /// sender posts, or goes, and then wakes it where it has said so; and a wake that comes before the sleep ends it at once.
    pub fn receive<R: Wait>(&mut self, rt: &R) -> Option<Post<S>>
        ensures given { MatchOption result (received self.new ≡ received self.old)
            (λ p. received self.new ≡ received self.old ++ p ∷ []) }
        ensures in_turn { IfSome result (λ p. IsNext (received self.old) p) }
        ensures home { IfSome result (λ p. IsHomed (home_of self.old) p) }
        ensures behind { IfSome result (λ p. IsBehind (received self.old) p) }
        ensures same { (inbox_of self.new ≡ inbox_of self.old)
            × (capacity self.new ≡ capacity self.old) }
    {
        let mut is_announced = false;
        for _ in rt.forever() {
            match self.look(rt) {
                Ok(post) => {
                    self.turns.room.be_awake();
                    self.wake();
                    return Some(post);
                }
                Err(TryRecvError::Disconnected) => return None,
                Err(TryRecvError::Empty) => {}
            }
            self.turns.ring();
            is_announced = self.turns.rest(rt, &self.parker, is_announced);
        }
        unreachable!()
    }

    /// A post, if one is found at once, as [`Inbox::receive`] gives it. `None` says only that nothing was received: the inbox was
    /// empty at one moment of the call, a post may wait all the same, and each sender may be gone. It wakes who waits for room once in
    /// 256 posts: see [`Inbox::wake`].
    pub fn try_receive<R: Wait>(&mut self, rt: &R) -> Option<Post<S>>
        ensures given { MatchOption result (received self.new ≡ received self.old)
            (λ p. received self.new ≡ received self.old ++ p ∷ []) }
        ensures in_turn { IfSome result (λ p. IsNext (received self.old) p) }
        ensures home { IfSome result (λ p. IsHomed (home_of self.old) p) }
        ensures behind { IfSome result (λ p. IsBehind (received self.old) p) }
        ensures same { (inbox_of self.new ≡ inbox_of self.old)
            × (capacity self.new ≡ capacity self.old) }
    {
        self.look(rt).ok()
    }

    // A post, or why none was found.
    fn look<R: Wait>(&mut self, rt: &R) -> Result<Post<S>, TryRecvError>
        ensures given { MatchResult result (λ p. received self.new ≡ received self.old ++ p ∷ [])
            (λ _. received self.new ≡ received self.old) }
        ensures in_turn { IfOk result (λ p. IsNext (received self.old) p) }
        ensures home { IfOk result (λ p. IsHomed (home_of self.old) p) }
        ensures behind { IfOk result (λ p. IsBehind (received self.old) p) }
        ensures same { (inbox_of self.new ≡ inbox_of self.old)
            × (capacity self.new ≡ capacity self.old) }
    {
        if self.gives_as_they_come() {
            return self.give_as_it_comes(rt);
        }
        let why = self.take_in(rt);
        self.deal(why)
    }

    // Whether posts are given as they come, and not by turns.
    fn gives_as_they_come(&self) -> bool
        ensures { result ≡ true → self.now.lines.aside ≡ None }
    {
        self.turns.is_calm(&self.lines) && self.lines.is_open()
    }

    // The next post of the channel, if nothing of its seat waits; a stop, if nothing waits at all.
    fn give_as_it_comes<R: Wait>(&mut self, rt: &R) -> Result<Post<S>, TryRecvError>
        requires open { self.old.lines.aside ≡ None }
        ensures given { MatchResult result (λ p. received self.new ≡ received self.old ++ p ∷ [])
            (λ _. received self.new ≡ received self.old) }
        ensures in_turn { IfOk result (λ p. IsNext (received self.old) p) }
        ensures home { IfOk result (λ p. IsHomed (home_of self.old) p) }
        ensures behind { IfOk result (λ p. IsBehind (received self.old) p) }
        ensures same { (inbox_of self.new ≡ inbox_of self.old)
            × (capacity self.new ≡ capacity self.old) }
    {
        let post = match self.receiver.try_recv_as::<Receives, R>(rt, &mut self.pass) {
            Ok(post) => post,
            Err(why) => return Err(why),
        };
        let place = place_of(&post);
        if !self.lines.lets_through(place) {
            self.lines.add(post);
            return self.deal(TryRecvError::Empty);
        }
        self.turns.note_given(place, &post);
        self.given.add(Snapshot::of(&post));
        Ok(post)
    }

    // Takes what the channel has into the lines, nothing behind a stop, and wakes who waits for room. Why it has no more.
    fn take_in<R: Wait>(&mut self, rt: &R) -> TryRecvError
        ensures none { received self.new ≡ received self.old }
        ensures same { (inbox_of self.new ≡ inbox_of self.old)
            × (capacity self.new ≡ capacity self.old) }
    {
        for _ in 0..MOST_TAKEN {
            if !self.lines.is_open() || self.lines.waits_at(0) {
                break;
            }
            if let Err(why) = self.take_one(rt) {
                self.wake();
                return why;
            }
        }
        self.wake();
        TryRecvError::Empty
    }

    // Takes a post into its line.
    fn take_one<R: Wait>(&mut self, rt: &R) -> Result<(), TryRecvError>
        requires open { self.old.lines.aside ≡ None }
        ensures none { received self.new ≡ received self.old }
        ensures same { (inbox_of self.new ≡ inbox_of self.old)
            × (capacity self.new ≡ capacity self.old) }
    {
        let taken = match self.receiver.try_recv_as::<Receives, R>(rt, &mut self.pass) {
            Ok(taken) => taken,
            Err(why) => return Err(why),
        };
        self.lines.add(taken);
        Ok(())
    }

    // The post whose turn it is, of those that wait; a stop, if nothing else does. Where none waits, why none came.
    fn deal(&mut self, why: TryRecvError) -> Result<Post<S>, TryRecvError>
        ensures given { MatchResult result (λ p. received self.new ≡ received self.old ++ p ∷ [])
            (λ _. received self.new ≡ received self.old) }
        ensures in_turn { IfOk result (λ p. IsNext (received self.old) p) }
        ensures home { IfOk result (λ p. IsHomed (home_of self.old) p) }
        ensures behind { IfOk result (λ p. IsBehind (received self.old) p) }
        ensures same { (inbox_of self.new ≡ inbox_of self.old)
            × (capacity self.new ≡ capacity self.old) }
    {
        let place = self.lines.stop_last(self.turns.next_place(&self.lines));
        let Some(first) = self.lines.pop(place) else {
            self.turns.schedule.calm_down();
            return Err(why);
        };
        self.turns.note_given(place, &first);
        self.given.add(Snapshot::of(&first));
        Ok(first)
    }

    /// Whether [`Inbox::note_time`] is to be told how long the posts took that it gave.
    pub fn is_due(&self) -> bool {
        self.turns.schedule.is_due()
    }

    /// Whether the post that it gave last is of a seat whose posts are dear.
    pub fn is_dear(&self) -> bool {
        self.turns.schedule.is_dear()
    }

    /// Whether the post that it gave last begins a turn: [`Inbox::note_time`] is to be told what is worked from here on.
    pub fn begins_turn(&self) -> bool {
        self.turns.schedule.begins_turn()
    }

    /// How many posts wait to be received, for who looks on: what is posted or received meanwhile may be in it or not.
    pub fn posts_waiting(&self) -> u64 {
        self.turns.posts_waiting()
    }

    /// Is told how many nanoseconds the posts took that it gave since it was last told, since the turn began, or since it waited. Tells
    /// whether that was dear: from then on it gives by turns, until nothing waits.
    pub fn note_time(&mut self, nanos: u64) -> bool
        ensures none { received self.new ≡ received self.old }
        ensures home { home_of self.new ≡ home_of self.old }
        ensures same { (inbox_of self.new ≡ inbox_of self.old)
            × (capacity self.new ≡ capacity self.old) }
    {
        self.turns.schedule.note_time(nanos)
    }

    /// Wakes 16 of the posters that wait for room, those first that have waited longest. Who receives several posts by
    /// [`Inbox::try_receive`] wakes once, after the last; until then they may sleep on. Where nobody waits it is no system call.
    pub fn wake(&self) {
        self.turns.ring_for_some();
    }
}

impl<S: Shut> Drop for Inbox<S> {
    // Posters that wait find that it is gone. Posts that wait in it last as long as a sender does, so that room is made by nobody.
    fn drop(self) {
        let Self {
            next: _,
            receiver,
            lines,
            given: _,
            turns,
            parker: _,
            pass: _,
        } = self;
        drop(receiver);
        drop(lines);
        turns.close();
    }
}

impl<S: Shut> Seat<S> {
    ghost use Rattle.realm_inbox.specs.EndViews.{posted, posted_at, poster_conn, seat_number, home_of_poster, home_of_seat, inbox_of_poster, inbox_of_seat};

    /// Its number, from 1 to 256. The connections of this seat take turns there.
    pub fn number(&self) -> u64
        ensures number { result ≡ seat_number self.now }
        ensures least { 1 ≤ result }
        ensures most { result ≤ 256 }
    {
        self.number
    }

    /// A poster of the connection at this seat, of its inbox. The seat, where its number isn't [`wamp_ids::seat`] of the connection.
    ///
    /// # Errors
    /// Only that.
    pub fn into_poster(self, conn: Conn) -> Result<Poster<S>, Seat<S>>
        ensures conn { IfOk result (λ p. poster_conn p ≡ conn) }
        ensures posted { IfOk result (λ p. posted p ≡ posted_at self) }
        ensures same { IfOk result (λ p. inbox_of_poster p ≡ inbox_of_seat self) }
        ensures seat { IfErr result (λ s. s ≡ self) }
        ensures which { MatchResult result (λ _. seat_of conn ≡ seat_number self)
            (λ _. seat_of conn ≢ seat_number self) }
    {
        if self.number != seat(conn) {
            return Err(self);
        }
        Ok(Poster {
            conn,
            seat: self,
            weights: GhostList::new(),
            returned: GhostCount::new(),
        })
    }

    // Posts an act of a connection of this seat, which was read from so many octets. The receiving end is woken only before a wait.
    pub(crate) fn post<R: Wait>(
        &mut self,
        rt: &R,
        conn: Conn,
        act: Act<S>,
        octets: usize,
    ) -> Result<(), Act<S>>
        requires seat { seat_of conn ≡ seat_number self.old }
        requires own { BringsOwn conn act }
        requires home { BringsHome (home_of_seat self.old) act }
        ensures posted { MatchResult result (λ _.
            posted_at self.new ≡ posted_at self.old ++ (conn, act) ∷ []) (λ back. (back ≡ act)
            × (posted_at self.new ≡ posted_at self.old)) }
        ensures same { (seat_number self.new ≡ seat_number self.old)
            × (inbox_of_seat self.new ≡ inbox_of_seat self.old) }
    {
        self.count.count_one(rt, &self.backlog, &self.bells);
        let weight = Weight::of(rt, &self.backlog, &self.bells, octets);
        let before = Snapshot::of(&self.past);
        let said = (conn, act);
        let last = Snapshot::of(&said);
        let (conn, act) = said;
        let letter = Letter {
            conn,
            act,
            before,
            weight,
        };
        let post = Post::Act(letter);
        match send_quietly::<_, _, _, Posts, R>(
            rt,
            &self.sender,
            &self.bells,
            &mut self.pass,
            post,
        ) {
            Ok(()) => {
                self.past.add(last);
                self.posted.tick();
                Ok(())
            }
            Err(Post::Act(letter)) => Err(letter.act),
            Err(Post::Stop(_)) => unreachable!(),
        }
    }
}

impl<S: Shut> Drop for Seat<S> {
    // Who receives looks again whether each sender is gone.
    fn drop(self) {
        let Self {
            number: _,
            past: _,
            posted: _,
            backlog: _,
            count: _,
            sender,
            bells,
            pass: _,
        } = self;
        drop(sender);
        bells.receiver.unpark();
    }
}

impl<S: Shut> Poster<S> {
    ghost use Rattle.realm_inbox.specs.EndViews.{posted, posted_at, poster_conn, seat_number, home_of_poster, home_of_seat, inbox_of_poster, inbox_of_seat, weights_by, returned_by};

    /// Posts an act of its connection, which was read from so many octets of the client's, or from none. A Join brings an outbox of
    /// this connection, and of the chronicle of its inbox, if one is picked for the outbox.
    ///
    /// It waits while the inbox is full, and while [`MOST_POSTS_WAITING`](crate::MOST_POSTS_WAITING) posts of its seat weren't given
    /// yet, until half of them were: the inbox tells of each 64 that it gives.
    ///
    /// Where the octets are 256 or more it waits while [`MOST_WAITING`](crate::MOST_WAITING) of its seat wait that weren't handled
    /// yet: once it waits, until fewer than half of them do. Who ends that wait is who drops the [`Weight`]s of these posts: the actor
    /// with each post that it has handled, and who turns away what is posted behind a stop; or the inbox, when it goes. Each of them
    /// rings, and no ring is missed ([`Backlog`]). A poster that waits has posts in the inbox, or one with the actor, so there is
    /// always one that is still to be handled.
    ///
    /// # Errors
    /// The act, where the inbox is gone. Nothing was posted then.
    pub fn post<R: Wait>(&mut self, rt: &R, act: Act<S>, octets: usize) -> Result<(), Act<S>>
        requires own { BringsOwn (poster_conn self.old) act }
        requires home { BringsHome (home_of_poster self.old) act }
        ensures posted { MatchResult result (λ _.
            posted self.new ≡ posted self.old ++ (poster_conn self.old, act) ∷ [])
            (λ back. (back ≡ act) × (posted self.new ≡ posted self.old)) }
        ensures same { (poster_conn self.new ≡ poster_conn self.old)
            × (inbox_of_poster self.new ≡ inbox_of_poster self.old) }
        ensures weighed { MatchResult result
            (λ _. weights_by self.new ≡ weights_by self.old ++ octets ∷ [])
            (λ _. weights_by self.new ≡ weights_by self.old) }
        ensures returned { MatchResult result (λ _. returned_by self.new ≡ returned_by self.old)
            (λ _. returned_by self.new ≡ returned_by self.old + 1) }
    {
        let posted = self.post_quietly(rt, act, octets);
        self.seat.bells.wake_receiver();
        posted
    }

    /// The connection that it posts for.
    pub fn conn(&self) -> Conn
        ensures { result ≡ poster_conn self.now }
    {
        self.conn
    }

    /// The seat that it posted at, for the next connection of that seat.
    pub fn into_seat(self) -> Seat<S>
        ensures number { seat_number result ≡ seat_of (poster_conn self) }
        ensures posted { posted_at result ≡ posted self }
        ensures same { inbox_of_seat result ≡ inbox_of_poster self }
    {
        let Poster {
            conn: _,
            seat,
            weights: _,
            returned: _,
        } = self;
        seat
    }
}
