//! How a message is sent, and waits while the channel is full.
ghost use Rattle.std.specs.Prelude.{◌≡◌, MatchResult};
ghost use Rattle.crossbeam_channel.specs.Claims.{view, IsSeatAt};
ghost use Rattle.crossbeam_channel.specs.Ends.{sends_on, ruled_capacity};
ghost use Rattle.crossbeam_channel.specs.Fifo.{Learns, Pushes};

use crate::room_bell::RoomBell;
use crossbeam_channel::protocol::{Lesson, Outcome, Protocol};
use crossbeam_channel::{Pass, RuledSender, TrySendError};
use crossbeam_utils::sync::Unparker;
use std::alloc::AllocError;
use std::sync::{Arc, Wait};

/// What a sender waits with: the bell that tells it of room, and what wakes the receiving end.
#[derive(Drop)]
pub(crate) struct Bells {
    pub(crate) room: Arc<RoomBell>,
    pub(crate) receiver: Unparker,
}

impl Bells {
    /// Wakes the receiving end, if it sleeps.
    pub(crate) fn wake_receiver(&self) {
        if self.room.ends_sleep() {
            self.receiver.unpark();
        }
    }

    /// Another holder of both. It takes no memory.
    pub(crate) fn twin(&self) -> Result<Bells, AllocError> {
        Ok(Bells {
            room: Arc::try_clone(&self.room)?,
            receiver: self.receiver.clone()?,
        })
    }
}

/// Sends a message, and wakes the receiving end if it sleeps; waits while the channel is full. The message comes back where the receiving end is
/// gone.
pub(crate) fn send<T: Drop, V, P: Protocol<T, V>, M: Outcome<T, V> + Lesson<T, V>, R: Wait>(
    rt: &R,
    sender: &RuledSender<T, V, P>,
    bells: &Bells,
    pass: &mut Pass<T, V>,
    message: T,
) -> Result<(), T>
    requires channel { IsSeatAt (sends_on sender.now) pass.old }
    requires rule { Pushes P.holds (ruled_capacity (sends_on sender.now))
        pass.old.id (view pass.old) message (M.then (view pass.old) message)
        × Learns P.holds pass.old.id (view pass.old) (M.fact (view pass.old)) }
    ensures channel { IsSeatAt (sends_on sender.now) pass.new × (pass.new.id ≡ pass.old.id) }
    ensures rule { MatchResult result (λ _. M.then (view pass.old) message (view pass.new))
        (λ back. (back ≡ message) × (view pass.new ≡ view pass.old)) }
{
    let sent = send_quietly::<T, V, P, M, R>(rt, sender, bells, pass, message);
    if sent.is_ok() {
        bells.wake_receiver();
    }
    sent
}

/// The same, but that the receiving end is woken only before a wait: whoever sends wakes it behind its last message.
pub(crate) fn send_quietly<T: Drop, V, P: Protocol<T, V>, M: Outcome<T, V> + Lesson<T, V>, R: Wait>(
    rt: &R,
    sender: &RuledSender<T, V, P>,
    bells: &Bells,
    pass: &mut Pass<T, V>,
    message: T,
) -> Result<(), T>
    requires channel { IsSeatAt (sends_on sender.now) pass.old }
    requires rule { Pushes P.holds (ruled_capacity (sends_on sender.now))
        pass.old.id (view pass.old) message (M.then (view pass.old) message)
        × Learns P.holds pass.old.id (view pass.old) (M.fact (view pass.old)) }
    ensures channel { IsSeatAt (sends_on sender.now) pass.new × (pass.new.id ≡ pass.old.id) }
    ensures rule { MatchResult result (λ _. M.then (view pass.old) message (view pass.new))
        (λ back. (back ≡ message) × (view pass.new ≡ view pass.old)) }
{
    let mut message = message;
    let mut heard = None;
    for _ in rt.forever() {
        match sender.try_send_as::<M, R>(rt, pass, message) {
            Ok(()) => {
                bells.room.leave(heard);
                return Ok(());
            }
            Err(TrySendError::Full(back)) => message = back,
            Err(gone) => {
                bells.room.leave(heard);
                return Err(gone.into_inner());
            }
        }
        heard = match heard {
            None => Some(bells.room.listen()),
            Some(rings) => {
                bells.wake_receiver();
                bells.room.wait(rt, rings);
                None
            }
        };
    }
    unreachable!()
}
