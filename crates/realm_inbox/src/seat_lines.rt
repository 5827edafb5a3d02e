//! Posts that were taken from the channel and aren't given yet, in a line for each seat.
ghost use Rattle.std.specs.Prelude.{◌≡◌, ◌≢◌, ℕ, ◌++◌, ◌∷◌, [], None, Some, true, MatchOption, IfNone, IfOk};
ghost use Rattle.realm_inbox.specs.SeatLines.{aside_at, first_part, line_at, own_part, place_of_post, waiting, waiting_in};

use crate::letter::Post;
use crate::post_kind::{PostKind, kind_of};
use crate::schedule::Schedule;
use crate::seat_line::SeatLine;
use crate::transport::Shut;
use std::alloc::{AllocError, Global};
use wamp_ids::{SEATS, seat};

/// Where a post waits: at its seat's number, and a stop, which stands at no seat, at 0.
pub(crate) fn place_of<S: Shut>(post: &Post<S>) -> u64
    ensures { result ≡ place_of_post post.now }
{
    match post {
        Post::Act(letter) => seat(letter.conn),
        Post::Stop(_) => 0,
    }
}

/// The lines. Contracts see what waits at each place, the oldest first (`waiting`), and what of it stands aside.
#[derive(Drop)]
pub(crate) struct SeatLines<S: Shut> {
    // Of each place from 0 to 256.
    pub(crate) lines: Vec<SeatLine<S>>,
    // A post for which its line found no memory. It waits behind that line.
    pub(crate) aside: Option<Post<S>>,
    // How many wait.
    pub(crate) count: u64,
}

impl<S: Shut> SeatLines<S> {
    /// Nothing waits.
    pub(crate) fn new(alloc: Global) -> Result<SeatLines<S>, AllocError>
        ensures none { IfOk result (λ l. (k : ℕ) → waiting l k ≡ []) }
        ensures aside { IfOk result (λ l. l.aside ≡ None) }
    {
        let lines = empty_lines(alloc)?;
        Ok(SeatLines {
            lines,
            aside: None,
            count: 0,
        })
    }

    /// Whether nothing stands aside: else no more may be added.
    pub(crate) fn is_open(&self) -> bool
        ensures { result ≡ true → self.now.aside ≡ None }
    {
        self.aside.is_none()
    }

    /// Whether nothing waits at all.
    pub(crate) fn is_idle(&self) -> bool {
        self.count == 0
    }

    /// Whether nothing waits at this place.
    pub(crate) fn is_free(&self, place: u64) -> bool
        ensures { result ≡ true → waiting self.now place ≡ [] }
    {
        if !self.is_open() {
            return false;
        }
        is_empty_at(&self.lines, place)
    }

    /// Whether nobody is to be given before a post of this place: nobody who waits there, and before a stop nobody at all.
    pub(crate) fn lets_through(&self, place: u64) -> bool
        ensures free { result ≡ true → waiting self.now place ≡ [] }
        ensures last { result ≡ true → place ≡ 0 → (k : ℕ) → k ≢ 0 → waiting self.now k ≡ [] }
    {
        self.is_free(place) && self.stop_last(place) == place
    }

    /// The place; or in place of that of stops one of a seat at which somebody waits, if there is any.
    pub(crate) fn stop_last(&self, place: u64) -> u64
        ensures last { result ≡ 0 → (k : ℕ) → k ≢ 0 → waiting self.now k ≡ [] }
        ensures kept { waiting self.now result ≡ [] → result ≡ place }
    {
        if place != 0 {
            return place;
        }
        let aside = place_aside(&self.aside);
        if aside != 0 {
            return aside;
        }
        first_line(&self.lines)
    }

    /// Adds a post at its place. For want of memory it stands aside.
    pub(crate) fn add(&mut self, post: Post<S>)
        requires { self.old.aside ≡ None }
        ensures { (k : ℕ) → waiting self.new k ≡ waiting self.old k ++ own_part k post }
    {
        self.count = self.count.wrapping_add(1);
        self.aside = into_line(&mut self.lines, post);
    }

    /// The first post that waits at a place, which leaves.
    pub(crate) fn pop(&mut self, place: u64) -> Option<Post<S>>
        ensures first { MatchOption result ((k : ℕ) → waiting self.new k ≡ waiting self.old k)
            (λ p. (k : ℕ) → waiting self.old k ≡ first_part place k p ++ waiting self.new k) }
        ensures none { IfNone result (waiting self.old place ≡ []) }
        ensures aside { self.old.aside ≡ None → self.new.aside ≡ None }
    {
        let first = first_of(&mut self.lines, &mut self.aside, place);
        if first.is_some() {
            self.count = self.count.wrapping_sub(1);
        }
        first
    }

    /// Adds a post at its place, and takes the first one from there, or before a stop one from elsewhere: the post itself, where nobody
    /// is to be given before it. The place of what is taken, and that.
    pub(crate) fn exchange(&mut self, post: Post<S>) -> (u64, Post<S>)
        requires { self.old.aside ≡ None }
        ensures first { (k : ℕ) → waiting self.old k ++ own_part k post
            ≡ first_part result.0 k result.1 ++ waiting self.new k }
        ensures last { result.0 ≡ 0 → (k : ℕ) → k ≢ 0
            → waiting self.old k ++ own_part k post ≡ [] }
    {
        let place = place_of(&post);
        if self.lets_through(place) {
            return (place, post);
        }
        self.add(post);
        let place = self.stop_last(place);
        match self.pop(place) {
            Some(first) => (place, first),
            None => unreachable!(),
        }
    }

    /// The place that has to be emptied before more may be added, where nobody is to wait at this one: that of the post that stands
    /// aside, or this one.
    pub(crate) fn place_to_empty(&self, place: u64) -> u64
        ensures { waiting self.now result ≡ []
            → (waiting self.now place ≡ []) × (self.now.aside ≡ None) }
    {
        match &self.aside {
            Some(post) => place_of(post),
            None => place,
        }
    }

    /// The seat whose turn it is, if somebody waits: 0 where a stop alone does.
    pub(crate) fn next_place(&self, schedule: &mut Schedule) -> u64 {
        let mut best = 0;
        let mut first_due = u64::MAX;
        let mut least_start = u64::MAX;
        for place in 1..=SEATS {
            let Some(kind) = self.next_kind(place) else {
                schedule.sit_out(place);
                continue;
            };
            let start = schedule.start_of(place);
            least_start = least_start.min(start);
            let due = start.saturating_add(schedule.probable(place, kind));
            if best == 0 || due < first_due {
                first_due = due;
                best = place;
            }
        }
        if best != 0 {
            schedule.raise_floor(least_start);
        }
        best
    }

    // What kind the next post of a place is, in its line or aside.
    fn next_kind(&self, place: u64) -> Option<PostKind> {
        if let Some(line) = self.lines.get(place as usize) {
            if let Some(first) = line.first() {
                return Some(kind_of(first));
            }
        }
        match &self.aside {
            Some(post) if place_of(post) == place => Some(kind_of(post)),
            _ => None,
        }
    }

    /// Whether somebody waits at a place, in its line or aside.
    pub(crate) fn waits_at(&self, place: u64) -> bool {
        let stands_aside = match &self.aside {
            Some(post) => place_of(post) == place,
            None => false,
        };
        let stands_in_line = match self.lines.get(place as usize) {
            Some(line) => !line.is_empty(),
            None => false,
        };
        stands_aside || stands_in_line
    }
}

// A line for each place, with nobody in it.
fn empty_lines<S: Shut>(alloc: Global) -> Result<Vec<SeatLine<S>>, AllocError>
    ensures { IfOk result (λ lines. (k : ℕ) → line_at lines.items k ≡ []) }
{
    let mut lines = Vec::with_capacity(alloc, SEATS as usize + 1)?;
    for _place in 0..=SEATS {
        lines.push(SeatLine::new(alloc))?;
    }
    Ok(lines)
}

// Whether nobody waits in the line of a place.
fn is_empty_at<S: Shut>(lines: &Vec<SeatLine<S>>, place: u64) -> bool
    ensures { result ≡ true → line_at lines.now.items place ≡ [] }
{
    let place = place as usize;
    if lines.len() <= place {
        return false;
    }
    lines[place].is_empty()
}

// The place of the post that stands aside, else 0.
fn place_aside<S: Shut>(aside: &Option<Post<S>>) -> u64
    ensures none { result ≡ 0 → (k : ℕ) → k ≢ 0 → aside_at k aside.now ≡ [] }
    ensures some { result ≢ 0 → aside_at result aside.now ≢ [] }
{
    match aside {
        Some(post) => place_of(post),
        None => 0,
    }
}

// The first place of a seat in whose line somebody waits, else 0.
fn first_line<S: Shut>(lines: &Vec<SeatLine<S>>) -> u64
    ensures none { result ≡ 0 → (k : ℕ) → k ≢ 0 → line_at lines.now.items k ≡ [] }
    ensures some { result ≢ 0 → line_at lines.now.items result ≢ [] }
{
    for place in 1..lines.len() {
        if !lines[place].is_empty() {
            return place as u64;
        }
    }
    0
}

// The first post that waits at a place, which leaves: of its line, or the one that stands aside.
fn first_of<S: Shut>(
    lines: &mut Vec<SeatLine<S>>,
    aside: &mut Option<Post<S>>,
    place: u64,
) -> Option<Post<S>>
    ensures first { MatchOption result
        ((k : ℕ) → waiting_in lines.new.items aside.new k ≡ waiting_in lines.old.items aside.old k)
        (λ p. (k : ℕ) → waiting_in lines.old.items aside.old k
        ≡ first_part place k p ++ waiting_in lines.new.items aside.new k) }
    ensures none { IfNone result (waiting_in lines.old.items aside.old place ≡ []) }
    ensures aside { aside.old ≡ None → aside.new ≡ None }
{
    if let Some(post) = out_of_line(lines, place) {
        return Some(post);
    }
    out_of(aside, place)
}

// Puts a post behind its line. It comes back where there was no memory for that.
fn into_line<S: Shut>(lines: &mut Vec<SeatLine<S>>, post: Post<S>) -> Option<Post<S>>
    ensures { MatchOption result
        ((k : ℕ) → line_at lines.new.items k ≡ line_at lines.old.items k ++ own_part k post)
        (λ back. (back ≡ post)
        × ((k : ℕ) → line_at lines.new.items k ≡ line_at lines.old.items k)) }
{
    let place = place_of(&post) as usize;
    if lines.len() <= place {
        return Some(post);
    }
    lines[place].push(post)
}

// The first post of a line, which leaves.
fn out_of_line<S: Shut>(lines: &mut Vec<SeatLine<S>>, place: u64) -> Option<Post<S>>
    ensures { MatchOption result ((line_at lines.old.items place ≡ [])
        × ((k : ℕ) → line_at lines.new.items k ≡ line_at lines.old.items k))
        (λ p. (k : ℕ) → line_at lines.old.items k
        ≡ first_part place k p ++ line_at lines.new.items k) }
{
    let place = place as usize;
    if lines.len() <= place {
        return None;
    }
    lines[place].pop()
}

// The post that stands aside, if it waits at this place.
fn out_of<S: Shut>(aside: &mut Option<Post<S>>, place: u64) -> Option<Post<S>>
    ensures first { MatchOption result (aside.new ≡ aside.old)
        (λ p. (aside.old ≡ Some p) × (place_of_post p ≡ place) × (aside.new ≡ None)) }
    ensures none { IfNone result (aside_at place aside.old ≡ []) }
{
    match aside {
        Some(post) if place_of(post) == place => aside.take(),
        _ => None,
    }
}
