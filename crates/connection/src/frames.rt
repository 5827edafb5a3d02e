//! What the frames are that a reader has read, is posted one after another.
ghost use Rattle.std.specs.Prelude.{◌≡◌, ◌≢◌, ◌+◌, ◌∷◌, ◌++◌, [], None, Ok, Err, ℕ, List, IfOk, IfErr, OnOk, OnErr, MatchResult, false};
ghost use Rattle.rawsocket.specs.Frames.{content, contents};
ghost use Rattle.rawsocket.specs.Deframer.{IsShort, completed};
ghost use Rattle.rawsocket.specs.declared.handshake.Serializer.{Serializer};
ghost use Rattle.realm_inbox.specs.Joins.{is_join};
ghost use Rattle.realm_inbox.specs.Posted.{with_acts};
ghost use Rattle.connection.specs.Posts.{Says, SaysNothing, is_farewell};
ghost use Rattle.connection.specs.Reader.{IsPosted, PostsFront, CountsSince, batch, came_back_with};

use crate::long_turns::{LONG_MESSAGE, LongTurn};
use crate::reader::ReadEnd;
use crate::weight::weight_of;
use message_tree::Octets;
use rawsocket::{Deframer, Frame, Kind, Serializer};
use realm_inbox::{Act, Posting, Shut};
use session::{Fault, Said, SaidKind, read_payload};
use std::alloc::Global;
use std::collections::VecDeque;
use std::sync::Wait;

/// So many posts of one read may stand behind each other before who receives them is woken: fewer wakes, while it begins on the first of
/// them before the last is read.
const MOST_QUIET: u32 = 32;

// Whether a client says no more after this.
fn is_last(said: &Said) -> bool
    ensures { result ≡ is_farewell said.now }
{
    said.kind() == SaidKind::Farewell
}

// Lets go of an act that came back.
fn let_go<S: Shut>(_back: Act<S>) {}

// Posts an act that is no Join, and was read from so many octets.
pub(crate) fn post<R: Wait, S: Shut, P: Posting<S>>(
    rt: &R,
    poster: &mut P,
    act: Act<S>,
    octets: usize,
) -> Result<(), ReadEnd>
    requires { is_join act ≡ false }
    ensures posted { OnOk result
        (P.posted poster.new ≡ with_acts (P.posted poster.old) (act ∷ [])) }
    ensures back { OnErr result (P.posted poster.new ≡ P.posted poster.old) }
    ensures end { IfErr result (λ e. e ≡ ReadEnd.ActorGone) }
    ensures weighed { MatchResult result
        (λ _. P.weights poster.new ≡ P.weights poster.old ++ octets ∷ [])
        (λ _. P.weights poster.new ≡ P.weights poster.old) }
    ensures returned { P.returned poster.new ≡ P.returned poster.old + came_back_with result }
{
    match poster.post(rt, act, octets) {
        Ok(()) => Ok(()),
        Err(back) => {
            let_go(back);
            Err(ReadEnd::ActorGone)
        }
    }
}

// Reads a payload: a long one in its turn.
fn read_in_turn<R: Wait>(
    rt: &R,
    alloc: Global,
    turn: LongTurn<'_>,
    serializer: Serializer,
    payload: &[u8],
) -> Result<Said, Fault>
    ensures ok { IfOk result (λ said. Says serializer payload.now said) }
    ensures bad { IfErr result (λ f. f ≢ Fault.NoMemory → SaysNothing serializer payload.now f) }
{
    match turn.turn {
        Some(turn) if payload.len() >= LONG_MESSAGE => {
            let held = turn.lock(rt);
            let read = read_payload(alloc, serializer, payload);
            drop(held);
            read
        }
        _ => read_payload(alloc, serializer, payload),
    }
}

// Posts what a payload says. Before a long one is read, who receives is woken: what was posted before doesn't wait for that.
fn post_message<R: Wait, S: Shut, P: Posting<S>>(
    rt: &R,
    alloc: Global,
    turn: LongTurn<'_>,
    serializer: Serializer,
    payload: &[u8],
    poster: &mut P,
) -> Result<(), ReadEnd>
    ensures posted { IsPosted serializer
        (batch (record { kind = Kind.Message; payload = payload.now } ∷ []) None)
        (P.posted poster.old) (P.posted poster.new) result }
    ensures counts { CountsSince serializer (P.posted poster.old) (P.posted poster.new)
        (P.weights poster.old) (P.weights poster.new) }
    ensures returned { P.returned poster.new ≡ P.returned poster.old + came_back_with result }
{
    if payload.len() >= LONG_MESSAGE {
        poster.rouse();
    }
    let said = match read_in_turn(rt, alloc, turn, serializer, payload) {
        Ok(said) => said,
        Err(Fault::NoMemory) => return Err(ReadEnd::NoMemory),
        Err(fault) => {
            if let Err(end) = post(rt, poster, Act::Spoilt, 0) {
                return Err(end);
            }
            return Err(ReadEnd::Violation(fault));
        }
    };
    let last = is_last(&said);
    let octets = weight_of(&said, payload.len());
    if let Err(end) = post(rt, poster, Act::Said(said), octets) {
        return Err(end);
    }
    if last {
        return Err(ReadEnd::Left);
    }
    Ok(())
}

// Posts a PING.
fn post_ping<R: Wait, S: Shut, P: Posting<S>>(
    rt: &R,
    payload: Octets,
    poster: &mut P,
) -> Result<(), ReadEnd>
    ensures posted { (s : Serializer) → IsPosted s
        (batch (record { kind = Kind.Ping; payload = payload } ∷ []) None)
        (P.posted poster.old) (P.posted poster.new) result }
    ensures counts { (s : Serializer) → CountsSince s (P.posted poster.old) (P.posted poster.new)
        (P.weights poster.old) (P.weights poster.new) }
    ensures returned { P.returned poster.new ≡ P.returned poster.old + came_back_with result }
{
    let octets = payload.as_slice().len();
    post(rt, poster, Act::Ping(payload), octets)
}

// Posts what a frame is, whose payload is read where it lies.
fn post_lying<R: Wait, S: Shut, P: Posting<S>>(
    rt: &R,
    alloc: Global,
    turn: LongTurn<'_>,
    serializer: Serializer,
    kind: Kind,
    payload: &[u8],
    poster: &mut P,
) -> Result<(), ReadEnd>
    ensures posted { IsPosted serializer
        (batch (record { kind = kind; payload = payload.now } ∷ []) None)
        (P.posted poster.old) (P.posted poster.new) result }
    ensures counts { CountsSince serializer (P.posted poster.old) (P.posted poster.new)
        (P.weights poster.old) (P.weights poster.new) }
    ensures returned { P.returned poster.new ≡ P.returned poster.old + came_back_with result }
{
    match kind {
        Kind::Message => post_message(rt, alloc, turn, serializer, payload, poster),
        Kind::Ping => match Octets::of(alloc, payload) {
            Ok(payload) => post_ping(rt, payload, poster),
            Err(_) => Err(ReadEnd::NoMemory),
        },
        Kind::Pong => Ok(()),
    }
}

// Posts what a frame is.
fn post_frame<R: Wait, S: Shut, P: Posting<S>>(
    rt: &R,
    alloc: Global,
    turn: LongTurn<'_>,
    serializer: Serializer,
    frame: Frame,
    poster: &mut P,
) -> Result<(), ReadEnd>
    ensures posted { IsPosted serializer (batch (content frame ∷ []) None) (P.posted poster.old)
        (P.posted poster.new) result }
    ensures counts { CountsSince serializer (P.posted poster.old) (P.posted poster.new)
        (P.weights poster.old) (P.weights poster.new) }
    ensures returned { P.returned poster.new ≡ P.returned poster.old + came_back_with result }
{
    match frame.kind {
        Kind::Ping => post_ping(rt, Octets::from_vec(frame.payload), poster),
        kind => post_lying(rt, alloc, turn, serializer, kind, &frame.payload, poster),
    }
}

// Posts the frame that a piece completed, if it did.
pub(crate) fn post_completed<R: Wait, S: Shut, P: Posting<S>>(
    rt: &R,
    alloc: Global,
    turn: LongTurn<'_>,
    serializer: Serializer,
    frame: Option<Frame>,
    poster: &mut P,
) -> Result<(), ReadEnd>
    ensures posted { IsPosted serializer (batch (completed frame) None) (P.posted poster.old)
        (P.posted poster.new) result }
    ensures counts { CountsSince serializer (P.posted poster.old) (P.posted poster.new)
        (P.weights poster.old) (P.weights poster.new) }
    ensures returned { P.returned poster.new ≡ P.returned poster.old + came_back_with result }
{
    match frame {
        Some(frame) => post_frame(rt, alloc, turn, serializer, frame, poster),
        None => Ok(()),
    }
}

// Posts that what stands behind the last frame is at fault, if it is.
pub(crate) fn post_fault<R: Wait, S: Shut, P: Posting<S>>(
    rt: &R,
    fault: Option<rawsocket::Fault>,
    poster: &mut P,
) -> Result<(), ReadEnd>
    ensures posted { (s : Serializer) → IsPosted s (batch [] fault) (P.posted poster.old)
        (P.posted poster.new) result }
    ensures counts { (s : Serializer) → CountsSince s (P.posted poster.old) (P.posted poster.new)
        (P.weights poster.old) (P.weights poster.new) }
    ensures returned { P.returned poster.new ≡ P.returned poster.old + came_back_with result }
{
    let Some(fault) = fault else {
        return Ok(());
    };
    match post(rt, poster, Act::Spoilt, 0) {
        Ok(()) => Err(ReadEnd::Violation(Fault::from(fault))),
        Err(end) => Err(end),
    }
}

// Posts what frames are.
pub(crate) fn post_frames<R: Wait, S: Shut, P: Posting<S>>(
    rt: &R,
    alloc: Global,
    turn: LongTurn<'_>,
    serializer: Serializer,
    frames: Vec<Frame>,
    poster: &mut P,
) -> Result<(), ReadEnd>
    ensures posted { IsPosted serializer (batch (contents frames.items) None) (P.posted poster.old)
        (P.posted poster.new) result }
    ensures counts { CountsSince serializer (P.posted poster.old) (P.posted poster.new)
        (P.weights poster.old) (P.weights poster.new) }
    ensures returned { P.returned poster.new ≡ P.returned poster.old + came_back_with result }
{
    let mut left = VecDeque::from_vec(frames);
    'frames: while let Some(frame) = left.pop_front() {
        if let Err(end) = post_frame(rt, alloc, turn, serializer, frame, poster) {
            return Err(end);
        }
    }
    Ok(())
}

// Wakes who receives, if so many posts of a read are enough for that.
fn rouse_in_time<S: Shut, P: Posting<S>>(poster: &P, posts: u32) {
    if posts % MOST_QUIET == 0 {
        poster.rouse();
    }
}

// Posts what the frames are that lie whole at the front of octets, each from where it lies, and gives what stands behind them.
pub(crate) fn post_whole<'p, R: Wait, S: Shut, P: Posting<S>>(
    rt: &R,
    alloc: Global,
    turn: LongTurn<'_>,
    serializer: Serializer,
    deframer: &Deframer,
    octets: &'p [u8],
    poster: &mut P,
) -> Result<&'p [u8], ReadEnd>
    ensures front { IfOk result (λ rest. PostsFront deframer.now.most serializer octets.now rest.now
        (P.posted poster.old) (P.posted poster.new) (Ok tt)) }
    ensures short { IfOk result (λ rest. IsShort deframer.now.most rest.now) }
    ensures ended { IfErr result (λ end. (rest : List ℕ)
        × PostsFront deframer.now.most serializer octets.now rest
        (P.posted poster.old) (P.posted poster.new) (Err end)) }
    ensures counts { CountsSince serializer (P.posted poster.old) (P.posted poster.new)
        (P.weights poster.old) (P.weights poster.new) }
    ensures returned { P.returned poster.new ≡ P.returned poster.old + came_back_with result }
{
    let mut rest = octets;
    let mut posts: u32 = 0;
    'frames: while let Some((kind, payload, after)) = deframer.next_frame(rest) {
        if let Err(end) = post_lying(rt, alloc, turn, serializer, kind, payload, poster) {
            return Err(end);
        }
        rest = after;
        posts = posts.wrapping_add(1);
        rouse_in_time::<S, P>(poster, posts);
    }
    Ok(rest)
}
