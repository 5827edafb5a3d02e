//! How an inbox is made.
ghost use Rattle.std.specs.Prelude.{◌≡◌, ℕ, ◌+◌, ◌<◌, ◌≤◌, List, [], ◌∷◌, ◌++◌, true, length, Option, Some, None, IfOk};
ghost use Rattle.crossbeam_channel.specs.Claims.{view, IsSeatAt};
ghost use Rattle.crossbeam_channel.specs.Ends.{sends_on};
ghost use Rattle.atomic_table.specs.Seated.{TableId};
ghost use Rattle.realm_inbox.specs.Ends.{home_in, place_of, received_in, shown_in, told_in, is_reader, is_door};
ghost use Rattle.realm_inbox.specs.EndViews.{home_of, received, capacity, shown, told, stops, inbox_of, inbox_of_door, IsNewSeat, AreNewSeats};

use crate::backlog::{Backlog, PostCount};
use crate::bells::Bells;
use crate::door::Door;
use crate::ends::{Inbox, Seat, Sending, Ticket};
use crate::history::RealmChronicle;
use crate::letter::Post;
use crate::room_bell::RoomBell;
use crate::rule::{CutDoor, CutSeat, InTurn, InboxNaming, InboxView};
use crate::schedule::Schedule;
use crate::seat_lines::SeatLines;
use crate::seat_turns::SeatTurns;
use crate::transport::Shut;
use crossbeam_channel::bounded_with;
use crossbeam_utils::sync::Parker;
use ghost_state::{GhostCount, GhostList};
use std::alloc::{AllocError, Global};
use std::marker::Brand;
use std::sync::Arc;
use wamp_ids::SEATS;

// What the door knows, cut before any seat. The caller picks the chronicle.
fn cut_door<S: Shut, J: InboxNaming>(sender: &Sending<S>, pass: &mut Ticket<S>) -> Ticket<S>
    requires pass { IsSeatAt (sends_on sender.now) pass.old × (is_reader 0 (view pass.old) ≡ true) }
    ensures pass { IsSeatAt (sends_on sender.now) pass.new × (is_reader 1 (view pass.new) ≡ true)
        × (received_in (view pass.new) ≡ received_in (view pass.old))
        × (home_in (view pass.new) ≡ J.home) }
    ensures door { IsSeatAt (sends_on sender.now) result × (is_door (view result) ≡ true)
        × (shown_in (view result) ≡ []) × (told_in (view result) ≡ [])
        × (place_of result ≡ place_of pass.new) }
{
    sender.another::<CutDoor<J>>(pass)
}

// The next seat.
fn cut_seat<S: Shut>(
    alloc: Global,
    sender: &Sending<S>,
    bells: &Bells,
    pass: &mut Ticket<S>,
    number: u64,
) -> Result<Seat<S>, AllocError>
    requires count { (1 ≤ number) × (number ≤ 256) }
    requires pass { IsSeatAt (sends_on sender.now) pass.old
        × (is_reader number (view pass.old) ≡ true) }
    ensures pass { IfOk result (λ _. IsSeatAt (sends_on sender.now) pass.new
        × (is_reader (number + 1) (view pass.new) ≡ true)
        × (received_in (view pass.new) ≡ received_in (view pass.old))
        × (place_of pass.new ≡ place_of pass.old)) }
    ensures seat { IfOk result (λ s. IsNewSeat (place_of pass.old) number s) }
{
    let own = sender.try_clone()?;
    let bells = bells.twin()?;
    let backlog = Arc::new(alloc, Backlog::new())?;
    let cut = sender.another::<CutSeat>(pass);
    Ok(Seat {
        number,
        past: GhostList::new(),
        posted: GhostCount::new(),
        backlog,
        count: PostCount::new(),
        sender: own,
        bells,
        pass: cut,
    })
}

// As many seats, from 1 on.
fn cut_seats<S: Shut>(
    alloc: Global,
    sender: &Sending<S>,
    bells: &Bells,
    pass: &mut Ticket<S>,
    count: u64,
) -> Result<Vec<Seat<S>>, AllocError>
    requires pass { IsSeatAt (sends_on sender.now) pass.old × (is_reader 1 (view pass.old) ≡ true)
        × (received_in (view pass.old) ≡ []) }
    requires count { count ≤ 256 }
    ensures pass { IfOk result (λ _. IsSeatAt (sends_on sender.now) pass.new
        × (is_reader (count + 1) (view pass.new) ≡ true) × (received_in (view pass.new) ≡ [])
        × (place_of pass.new ≡ place_of pass.old)) }
    ensures seats { IfOk result (λ s. (length s.items ≡ count)
        × AreNewSeats (place_of pass.old) s.items) }
{
    let mut seats = Vec::new(alloc);
    for i in 0..count {
        let seat = cut_seat(alloc, sender, bells, pass, i + 1)?;
        seats.push(seat)?;
    }
    Ok(seats)
}

// What the receiving end keeps of the seats.
fn turns_of<S: Shut>(
    alloc: Global,
    room: Arc<RoomBell>,
    seats: &[Seat<S>],
) -> Result<SeatTurns, AllocError> {
    let backlogs = backlogs_of(alloc, seats)?;
    let schedule = Schedule::new(alloc)?;
    Ok(SeatTurns {
        schedule,
        room,
        backlogs,
        unrung: 0,
    })
}

// The backlog of each seat.
fn backlogs_of<S: Shut>(alloc: Global, seats: &[Seat<S>]) -> Result<Vec<Arc<Backlog>>, AllocError> {
    let mut backlogs = Vec::with_capacity(alloc, seats.len())?;
    for seat in seats {
        backlogs.push(Arc::try_clone(&seat.backlog)?)?;
    }
    Ok(backlogs)
}

/// An inbox in which at most `cap` posts wait, 1 or more, with its door and its seats, from 1 to 256 in order. Nothing was posted
/// or received yet. No chronicle is picked for its realm: see [`inbox_of_chronicle`]. So a Join brings an outbox for which none is
/// picked either.
///
/// # Errors
/// Where a growth of memory was refused. All that the ends ever take is taken here.
pub fn inbox<S: Shut>(
    alloc: Global,
    cap: usize,
) -> Result<(Door<S>, Vec<Seat<S>>, Inbox<S>), AllocError>
    requires { 1 ≤ cap }
    ensures count { IfOk result (λ r. length r.1.items ≡ 256) }
    ensures seats { IfOk result (λ r. AreNewSeats (inbox_of r.2) r.1.items) }
    ensures inbox { IfOk result (λ r. (received r.2 ≡ []) × (capacity r.2 ≡ cap)) }
    ensures home { IfOk result (λ r. home_of r.2 ≡ None) }
    ensures door { IfOk result (λ r. (stops r.0 ≡ 0) × (inbox_of_door r.0 ≡ inbox_of r.2)) }
    ensures shown { IfOk result (λ r. (shown r.0 ≡ []) × (told r.0 ≡ [])) }
{
    make(alloc, cap, None)
}

/// The same as [`inbox`], of a realm whose history this chronicle records: a Join brings an outbox of this chronicle, or one for which
/// none is picked.
///
/// # Errors
/// Where a growth of memory was refused. All that the ends ever take is taken here.
pub fn inbox_of_chronicle<S: Shut>(
    alloc: Global,
    cap: usize,
    chronicle: &RealmChronicle,
) -> Result<(Door<S>, Vec<Seat<S>>, Inbox<S>), AllocError>
    requires { 1 ≤ cap }
    ensures count { IfOk result (λ r. length r.1.items ≡ 256) }
    ensures seats { IfOk result (λ r. AreNewSeats (inbox_of r.2) r.1.items) }
    ensures inbox { IfOk result (λ r. (received r.2 ≡ []) × (capacity r.2 ≡ cap)) }
    ensures home { IfOk result (λ r. home_of r.2 ≡ Some chronicle.now.chronicle) }
    ensures door { IfOk result (λ r. (stops r.0 ≡ 0) × (inbox_of_door r.0 ≡ inbox_of r.2)) }
    ensures shown { IfOk result (λ r. (shown r.0 ≡ []) × (told r.0 ≡ [])) }
{
    make(alloc, cap, Some(chronicle))
}

// Makes an inbox of the chronicle, or of none: the caller picks which by it.
fn make<S: Shut>(
    alloc: Global,
    cap: usize,
    chronicle: Option<&RealmChronicle>,
) -> Result<(Door<S>, Vec<Seat<S>>, Inbox<S>), AllocError>
    ghost picked: { Option TableId }
    requires { 1 ≤ cap }
    ensures count { IfOk result (λ r. length r.1.items ≡ 256) }
    ensures seats { IfOk result (λ r. AreNewSeats (inbox_of r.2) r.1.items) }
    ensures inbox { IfOk result (λ r. (received r.2 ≡ []) × (capacity r.2 ≡ cap)) }
    ensures home { IfOk result (λ r. home_of r.2 ≡ picked) }
    ensures door { IfOk result (λ r. (stops r.0 ≡ 0) × (inbox_of_door r.0 ≡ inbox_of r.2)) }
    ensures shown { IfOk result (λ r. (shown r.0 ≡ []) × (told r.0 ≡ [])) }
{
    let _ = chronicle;
    let (sender, receiver, mut pass) = bounded_with::<Post<S>, InboxView<S>, InTurn, Global>(
        alloc, cap,
    )?;
    let door = cut_door::<S, Brand>(&sender, &mut pass);
    let parker = Parker::new(alloc)?;
    let room = Arc::new(alloc, RoomBell::new())?;
    let bells = Bells {
        room: Arc::try_clone(&room)?,
        receiver: parker.unparker().clone()?,
    };
    let seats = cut_seats(alloc, &sender, &bells, &mut pass, SEATS)?;
    let turns = turns_of(alloc, room, &seats)?;
    let lines = SeatLines::new(alloc)?;
    Ok((
        Door {
            sender,
            bells,
            shown: GhostList::new(),
            pass: door,
        },
        seats,
        Inbox {
            next: SEATS + 1,
            receiver,
            lines,
            given: GhostList::new(),
            turns,
            parker,
            pass,
        },
    ))
}
