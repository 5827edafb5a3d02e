//! A client's whole session (WAMP, "Session Establishment" and "Session Closing").
ghost use Rattle.server_laws.specs.WholeSessions.{CutSessionsAreTold, SessionsGoWhole};

use realm_inbox::Shut;
use std::marker::PhantomData;

/// Nobody is cut for nothing, and no Join is lost untold. Of a session that was over before the actors were told to stop, by
/// whatever ended its reader but that nobody receives any more, and of which the writer stopped, so that it was told neither
/// that its outbox was full nor that it was lost: what was written is exactly what its realm's one history owes it. And it went
/// whole: all that it posted entered that history, in order, up to what ended it, and nothing else of it did; WELCOME was written
/// first, and the answer to a GOODBYE last. Unless its Join was refused, which ABORT alone answered.
pub fn sessions_go_whole<I, O, S: Shut>(_halves: PhantomData<(I, O)>, _transport: PhantomData<S>)
    ensures { SessionsGoWhole I O S }
{}

/// Of such a session that was told that it was lost: what was written is exactly what it is owed, and it was cut, which all precedes
/// that it had said before. Of one that was told that its outbox was full: what was written begins what it is owed, and
/// is as many items as its outbox holds, or more; and it went whole, or was cut, or its Join was refused.
pub fn cut_sessions_are_told<I, O, S: Shut>(
    _halves: PhantomData<(I, O)>,
    _transport: PhantomData<S>,
)
    ensures { CutSessionsAreTold I O S }
{}
