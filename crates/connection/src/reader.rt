//! The reader of a connection: it reads octets, and posts what they say.
ghost use Rattle.std.specs.Prelude.{◌≡◌, ◌≤◌, ◌<◌, ◌+◌, [], Ok, Err, length, true};
ghost use Rattle.rawsocket.specs.Frames.{contents};
ghost use Rattle.rawsocket.specs.declared.handshake.Serializer.{Serializer};
ghost use Rattle.rawsocket.specs.Steps.{ReadSteps, read_meter};
ghost use Rattle.connection.specs.Reader.{IsAdvance, IsReadUpTo, IsReadBy, ReadsSince, ReadsUntil, Departs, CountsSince, came_back, came_back_with, read_told, start, taking};

use crate::frames::{post, post_completed, post_fault, post_frames, post_whole};
use crate::long_turns::LongTurn;
use rawsocket::devices::{NoOctets, PIECE, Source, Turns, read_piece};
use rawsocket::{Deframer, Frame, Serializer};
use realm_inbox::{Act, Posting, Shut};
use session::{Fault, Opened};
use std::alloc::Global;
use std::sync::Wait;

/// Why a reader ended.
#[derive(Clone, Copy, Debug, Drop, PartialEq, Eq)]
pub enum ReadEnd {
    /// The client said GOODBYE or ABORT, which is posted last.
    Left,
    /// The client broke the protocol, by this fault: `Spoilt` is posted last.
    Violation(Fault),
    /// The stream ended. `Gone` is posted last.
    Ended,
    /// The device failed. `Gone` is posted last.
    Device,
    /// The device was read 2^32 times. `Gone` is posted last.
    TooManyTurns,
    /// A growth of memory was refused. `Gone` is posted last, and what was read may not be posted whole.
    NoMemory,
    /// Nobody receives posts any more: one came back.
    ActorGone,
}

impl From<NoOctets> for ReadEnd {
    ghost use Rattle.std.specs.Prelude.{◌≡◌};
    ghost use Rattle.connection.specs.Reader.{end_of};

    ghost from_gives = { λ of end. end ≡ end_of of };

    fn from(none: NoOctets) -> ReadEnd {
        match none {
            NoOctets::Ended => ReadEnd::Ended,
            NoOctets::Failed => ReadEnd::Device,
            NoOctets::TooManyTurns => ReadEnd::TooManyTurns,
        }
    }
}

// Takes the next octets of the stream, and posts the frames that they complete.
fn advance<R: Wait, S: Shut, P: Posting<S>>(
    rt: &R,
    alloc: Global,
    turn: LongTurn<'_>,
    serializer: Serializer,
    deframer: &mut Deframer,
    piece: &[u8],
    poster: &mut P,
) -> Result<(), ReadEnd>
    ensures advances { IsAdvance (start serializer [] deframer.old)
        (taking piece.now deframer.new.held)
        (P.posted poster.old) (P.posted poster.new) result }
    ensures most { deframer.new.most ≡ deframer.old.most }
    ensures counts { CountsSince serializer (P.posted poster.old) (P.posted poster.new)
        (P.weights poster.old) (P.weights poster.new) }
    ensures returned { P.returned poster.new ≡ P.returned poster.old + came_back_with result }
{
    let (frame, rest) = match deframer.resume(alloc, piece) {
        Ok(resumed) => resumed,
        Err(_) => return Err(ReadEnd::NoMemory),
    };
    if let Err(end) = post_completed(rt, alloc, turn, serializer, frame, poster) {
        return Err(end);
    }
    let rest = match post_whole(rt, alloc, turn, serializer, deframer, rest, poster) {
        Ok(rest) => rest,
        Err(end) => return Err(end),
    };
    if deframer.hold(alloc, rest).is_err() {
        return Err(ReadEnd::NoMemory);
    }
    post_fault(rt, deframer.fault(), poster)
}

// Posts the early frames, and what the deframer holds behind them.
fn begin<R: Wait, S: Shut, P: Posting<S>>(
    rt: &R,
    alloc: Global,
    turn: LongTurn<'_>,
    serializer: Serializer,
    early: Vec<Frame>,
    deframer: &mut Deframer,
    poster: &mut P,
) -> Result<(), ReadEnd>
    ensures advances { IsAdvance (start serializer (contents early.items) deframer.old)
        (taking [] deframer.new.held) (P.posted poster.old) (P.posted poster.new) result }
    ensures most { deframer.new.most ≡ deframer.old.most }
    ensures counts { CountsSince serializer (P.posted poster.old) (P.posted poster.new)
        (P.weights poster.old) (P.weights poster.new) }
    ensures returned { P.returned poster.new ≡ P.returned poster.old + came_back_with result }
{
    if let Err(end) = post_frames(rt, alloc, turn, serializer, early, poster) {
        return Err(end);
    }
    advance(rt, alloc, turn, serializer, deframer, &[], poster)
}

// Posts the early frames and those that the deframer holds, and then reads and posts until something ends it. Before each read, who
// receives is woken.
fn read_on<R: Wait, S: Shut, I: Source, P: Posting<S>>(
    rt: &R,
    alloc: Global,
    turn: LongTurn<'_>,
    source: &mut I,
    serializer: Serializer,
    early: Vec<Frame>,
    deframer: Deframer,
    buffer: &mut [u8],
    poster: &mut P,
    octets: &mut u64,
) -> ReadEnd
    requires some { 0 < length buffer.old }
    requires piece { length buffer.old ≤ 65536 }
    ensures posted { ReadsSince (I.seen source.old).given (I.seen source.new).given
        (P.posted poster.old) (P.posted poster.new)
        (IsReadUpTo (start serializer (contents early.items) deframer) result) }
    ensures ended { result ≡ ReadEnd.Ended → (I.seen source.new).is_ended ≡ true }
    ensures reads { ReadSteps (I.seen source.old) (I.seen source.new) (read_told result) }
    ensures counts { CountsSince serializer (P.posted poster.old) (P.posted poster.new)
        (P.weights poster.old) (P.weights poster.new) }
    ensures returned { P.returned poster.new ≡ P.returned poster.old + came_back result }
{
    let mut deframer = deframer;
    let mut turns = Turns::new();
    if let Err(end) = begin(rt, alloc, turn, serializer, early, &mut deframer, poster) {
        return end;
    }
    'pieces: loop {
        poster.rouse();
        let count = match read_piece(source, buffer, &mut turns) {
            Ok(count) => count,
            Err(none) => return ReadEnd::from(none),
        };
        *octets = octets.wrapping_add(count as u64);
        let piece = &buffer[..count];
        if let Err(end) = advance(rt, alloc, turn, serializer, &mut deframer, piece, poster) {
            return end;
        }
    }
}

// Posts that the client is gone, where nothing that it sent ended it.
fn leave<R: Wait, S: Shut, P: Posting<S>>(rt: &R, poster: &mut P, end: ReadEnd) -> ReadEnd
    ensures departs { Departs end (P.posted poster.old) (P.posted poster.new) result }
    ensures counts { (s : Serializer) → CountsSince s (P.posted poster.old) (P.posted poster.new)
        (P.weights poster.old) (P.weights poster.new) }
    ensures returned { P.returned poster.new + came_back end
        ≡ P.returned poster.old + came_back result }
{
    match end {
        ReadEnd::Left => return end,
        ReadEnd::Violation(_) => return end,
        ReadEnd::ActorGone => return end,
        _ => {}
    }
    if let Err(end) = post(rt, poster, Act::Gone, 0) {
        return end;
    }
    end
}

// The same as `read_on`, with a buffer of its own.
fn read_up_to<R: Wait, S: Shut, I: Source, P: Posting<S>>(
    rt: &R,
    alloc: Global,
    turn: LongTurn<'_>,
    source: &mut I,
    opened: Opened,
    poster: &mut P,
    octets: &mut u64,
) -> ReadEnd
    ensures posted { ReadsSince (I.seen source.old).given (I.seen source.new).given
        (P.posted poster.old) (P.posted poster.new) (IsReadUpTo
        (start opened.serializer (contents opened.early.items) opened.deframer) result) }
    ensures ended { result ≡ ReadEnd.Ended → (I.seen source.new).is_ended ≡ true }
    ensures reads { ReadSteps (I.seen source.old) (I.seen source.new) (read_told result) }
    ensures counts { CountsSince opened.serializer (P.posted poster.old) (P.posted poster.new)
        (P.weights poster.old) (P.weights poster.new) }
    ensures returned { P.returned poster.new ≡ P.returned poster.old + came_back result }
{
    let Ok(mut buffer) = vec![in alloc; 0; PIECE] else {
        return ReadEnd::NoMemory;
    };
    read_on(
        rt,
        alloc,
        turn,
        source,
        opened.serializer,
        opened.early,
        opened.deframer,
        &mut buffer,
        poster,
        octets,
    )
}

/// Posts what a client does after its HELLO: first what the opening of the session read already, then what is read from here on, until
/// the client leaves or breaks the protocol, or something fails. A PING is posted, a PONG is passed over. A read takes up to 65,536
/// octets, and gives as many posts as it completes frames. Nothing is read or posted after what ends it, but that the client is gone:
/// what the client ends it by is complete within the last 65,536 octets that were read, and not before them.
///
/// Each message is posted as no fewer octets than it has, and each PING: so an inbox that counts them knows what waits.
///
/// A failed read is told by [`ReadEnd::Device`], unless nobody receives any more that the client is gone: then by
/// [`ReadEnd::ActorGone`].
pub fn read_posts<R: Wait, S: Shut, I: Source, P: Posting<S>>(
    rt: &R,
    alloc: Global,
    source: &mut I,
    opened: Opened,
    poster: &mut P,
) -> ReadEnd
    ensures posted { ReadsSince (I.seen source.old).given (I.seen source.new).given
        (P.posted poster.old) (P.posted poster.new)
        (IsReadBy (start opened.serializer (contents opened.early.items) opened.deframer) result) }
    ensures ended { result ≡ ReadEnd.Ended → (I.seen source.new).is_ended ≡ true }
    ensures reads { ReadsUntil (read_meter (I.seen source.old)) (read_meter (I.seen source.new))
        result }
    ensures counts { CountsSince opened.serializer (P.posted poster.old) (P.posted poster.new)
        (P.weights poster.old) (P.weights poster.new) }
    ensures returned { P.returned poster.new ≡ P.returned poster.old + came_back result }
{
    read_counted(rt, alloc, LongTurn::free(), source, opened, poster, &mut 0)
}

/// The same, where long messages of several connections are read in turns. It adds to `octets` how many octets it read.
pub fn read_counted<R: Wait, S: Shut, I: Source, P: Posting<S>>(
    rt: &R,
    alloc: Global,
    turn: LongTurn<'_>,
    source: &mut I,
    opened: Opened,
    poster: &mut P,
    octets: &mut u64,
) -> ReadEnd
    ensures posted { ReadsSince (I.seen source.old).given (I.seen source.new).given
        (P.posted poster.old) (P.posted poster.new)
        (IsReadBy (start opened.serializer (contents opened.early.items) opened.deframer) result) }
    ensures ended { result ≡ ReadEnd.Ended → (I.seen source.new).is_ended ≡ true }
    ensures reads { ReadsUntil (read_meter (I.seen source.old)) (read_meter (I.seen source.new))
        result }
    ensures counts { CountsSince opened.serializer (P.posted poster.old) (P.posted poster.new)
        (P.weights poster.old) (P.weights poster.new) }
    ensures returned { P.returned poster.new ≡ P.returned poster.old + came_back result }
{
    let end = read_up_to(rt, alloc, turn, source, opened, poster, octets);
    let end = leave(rt, poster, end);
    poster.rouse();
    end
}
