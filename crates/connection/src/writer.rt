//! The writer of a connection: it takes items and writes their frames.
ghost use Rattle.std.specs.Prelude.{◌≡◌, ◌≢◌, ◌≤◌, ◌<◌, ◌++◌, ◌∷◌, ◌⊎◌, [], length, IfOk, IfErr, OnOk, OnErr, Some, ⊤};
ghost use Rattle.rawsocket.specs.Devices.{Takes, TakesBeginning};
ghost use Rattle.rawsocket.specs.Steps.{Steps, WriteSteps, told_by, write_meter};
ghost use Rattle.outbox_queue.specs.Ends.{TookFull, TookLost, TookUnvouched, TookWhole};
ghost use Rattle.outbox_queue.specs.Outbox.{MatchDrained};
ghost use Rattle.session.specs.LargeFrames.{octets_in};
ghost use Rattle.connection.specs.Watch.{AreTold, AreToldBy, TellsSince};
ghost use Rattle.connection.specs.Writer.{IsWrittenBy, WritesSince, IsLater, write_told};
ghost use Rattle.connection.specs.body.Watch.{GivesUp};
ghost use Rattle.connection.specs.body.Writer.{IsOfDevice, HandsOver, EndsBetween, EndsWith, AddsFrame, BreaksAt, Passes, EndsFrom, output};

use crate::told::Told;
use crate::watch::Watch;
use outbox_queue::{Drain, Drained, Next, Owed, Waited};
use rawsocket::Serializer;
use rawsocket::devices::{Sink, Turns, write_all};
use session::{Fault, FrameEnd, Item, write_unless_large};
use std::alloc::Global;
use std::sync::Wait;

/// So many octets are handed over at once.
const HELD: usize = 65_536;

/// A buffer with room for more octets than these isn't kept once they are handed over.
const KEPT: usize = 131_072;

/// Why a writer ended.
#[derive(Clone, Copy, Debug, Drop, PartialEq, Eq)]
pub enum WriteEnd {
    /// The outbox was found empty, and all items that were taken are written. Where its other end is waited for, that was handed over.
    Stopped,
    /// The same, but the outbox was found full: as many items as it holds were taken, or more, and what the history owes beside them isn't written.
    Full,
    /// The same as for [`WriteEnd::Stopped`], but memory was refused for something of the session's, and so its realm had cut it.
    Lost,
    /// The same as for [`WriteEnd::Stopped`], but its other end was dropped: nothing vouches for what was added.
    Dropped,
    /// The device failed. A beginning of the frames of all items is written, in which less than 65,536 octets and one frame may lack.
    Device,
    /// The client can't take the last item: it has more octets than the client takes, or no spelling. Nothing of it is written.
    TooLong,
    /// A growth of memory was refused for the last item. Nothing of it is written.
    NoMemory,
    /// The device was written 2^32 times. What is written is as for [`WriteEnd::Device`].
    TooManyTurns,
}

/// For whom a writer writes: what the client asked for in its handshake.
#[derive(Clone, Copy, Drop)]
struct ClientTerms {
    serializer: Serializer,
    limit: u32,
}

/// When a writer that finds nothing waiting stops.
#[derive(Clone, Copy, Drop)]
enum Until {
    /// Once the outbox is closed.
    Closed,
    /// Once its other end came over, so that nothing can come any more.
    Whole,
}

/// Frames that a writer holds back, and the turns that it has left at its device.
#[derive(Drop)]
struct Gathered {
    alloc: Global,
    frames: Vec<u8>,
    turns: Turns,
    // How many octets were handed to the device, for who watches.
    octets: u64,
}

impl Gathered {
    /// No frames, and all turns.
    fn nothing(alloc: Global) -> Gathered
        ensures frames { result.frames.items ≡ [] }
        ensures turns { result.turns ≡ 4294967296 }
    {
        Gathered {
            alloc,
            frames: Vec::new(alloc),
            turns: Turns::new(),
            octets: 0,
        }
    }
}

/// Writes octets from where they lie.
fn write<S: Sink>(sink: &mut S, octets: &[u8], turns: &mut Turns) -> Result<(), WriteEnd>
    ensures passed { OnOk result (Takes (S.seen sink.old) (S.seen sink.new) octets.now) }
    ensures begun { TakesBeginning (S.seen sink.old) (S.seen sink.new) octets.now }
    ensures which { IfErr result IsOfDevice }
    ensures steps { Steps (write_meter (S.seen sink.old) turns.old)
        (write_meter (S.seen sink.new) turns.new) (told_by write_told result) }
{
    match write_all(sink, octets, turns) {
        Ok(()) => Ok(()),
        Err(rawsocket::Fault::WriteFault) => Err(WriteEnd::Device),
        Err(_) => Err(WriteEnd::TooManyTurns),
    }
}

/// Hands what is gathered to the device. Nothing is gathered then, and no large buffer is kept.
fn hand_over<S: Sink>(sink: &mut S, gathered: &mut Gathered) -> Result<(), WriteEnd>
    ensures passed { OnOk result
        (Takes (S.seen sink.old) (S.seen sink.new) gathered.old.frames.items) }
    ensures empty { OnOk result (gathered.new.frames.items ≡ []) }
    ensures begun { TakesBeginning (S.seen sink.old) (S.seen sink.new) gathered.old.frames.items }
    ensures which { IfErr result IsOfDevice }
    ensures steps { Steps (write_meter (S.seen sink.old) gathered.old.turns)
        (write_meter (S.seen sink.new) gathered.new.turns) (told_by write_told result) }
{
    if let Err(end) = write(sink, gathered.frames.as_slice(), &mut gathered.turns) {
        return Err(end);
    }
    gathered.octets = gathered.octets.wrapping_add(gathered.frames.len() as u64);
    if gathered.frames.capacity() > KEPT {
        gathered.frames = Vec::new(gathered.alloc);
    } else {
        gathered.frames.clear();
    }
    Ok(())
}

/// Hands over what is gathered, and behind it the end of its last frame, which is copied nowhere.
fn hand_over_large<S: Sink>(
    sink: &mut S,
    gathered: &mut Gathered,
    end: FrameEnd,
) -> Result<(), WriteEnd>
    ensures passed { OnOk result (Takes (S.seen sink.old) (S.seen sink.new)
        (gathered.old.frames.items ++ octets_in (Some end.entry))) }
    ensures empty { OnOk result (gathered.new.frames.items ≡ []) }
    ensures begun { TakesBeginning (S.seen sink.old) (S.seen sink.new)
        (gathered.old.frames.items ++ octets_in (Some end.entry)) }
    ensures which { IfErr result IsOfDevice }
    ensures steps { Steps (write_meter (S.seen sink.old) gathered.old.turns)
        (write_meter (S.seen sink.new) gathered.new.turns) (told_by write_told result) }
{
    if let Err(fault) = hand_over(sink, gathered) {
        return Err(fault);
    }
    if let Err(fault) = write(sink, end.arguments, &mut gathered.turns) {
        return Err(fault);
    }
    if let Err(fault) = write(sink, end.closing, &mut gathered.turns) {
        return Err(fault);
    }
    let octets = (end.arguments.len() as u64).wrapping_add(end.closing.len() as u64);
    gathered.octets = gathered.octets.wrapping_add(octets);
    Ok(())
}

/// Hands over what is gathered, and tells the device to pass on what it holds itself.
fn pass_on<S: Sink>(sink: &mut S, gathered: &mut Gathered) -> Result<(), WriteEnd>
    ensures passed { OnOk result
        (Takes (S.seen sink.old) (S.seen sink.new) gathered.old.frames.items) }
    ensures empty { OnOk result (gathered.new.frames.items ≡ []) }
    ensures begun { TakesBeginning (S.seen sink.old) (S.seen sink.new) gathered.old.frames.items }
    ensures which { IfErr result IsOfDevice }
    ensures steps { Steps (write_meter (S.seen sink.old) gathered.old.turns)
        (write_meter (S.seen sink.new) gathered.new.turns) (told_by write_told result) }
{
    if let Err(end) = hand_over(sink, gathered) {
        return Err(end);
    }
    match sink.flush() {
        Ok(()) => Ok(()),
        Err(_) => Err(WriteEnd::Device),
    }
}

/// Waits for the next item, or until there is to be none. Nothing is gathered meanwhile.
fn wait<R: Wait, H: Owed<Item>>(
    rt: &R,
    drain: &mut Drain<Item, H>,
    _gathered: &Gathered,
    until: Until,
) -> Drained<Item>
    requires gathered { _gathered.now.frames.items ≡ [] }
    ensures took { MatchDrained result (λ item. drain.new.taken ≡ drain.old.taken ++ item ∷ [])
        (drain.new.taken ≡ drain.old.taken) (drain.new.taken ≡ drain.old.taken)
        (drain.new.taken ≡ drain.old.taken) (drain.new.taken ≡ drain.old.taken) }
    ensures drain { IsLater H.begins drain.old drain.new }
    ensures found { MatchDrained result (λ _. ⊤) (drain.old.empty_finds < drain.new.empty_finds)
        (drain.old.empty_finds < drain.new.empty_finds)
        (drain.old.empty_finds < drain.new.empty_finds)
        (drain.old.empty_finds < drain.new.empty_finds) }
    ensures whole { MatchDrained result (λ _. ⊤)
        (until ≡ Until.Whole → TookWhole H.owed H.is_over H.was_cut drain.new)
        ((until ≡ Until.Whole) × TookFull H.owed H.is_over H.was_cut drain.new)
        ((until ≡ Until.Whole) × TookLost H.owed H.is_over H.was_cut drain.new)
        ((until ≡ Until.Whole) × TookUnvouched H.owed H.is_over H.was_cut drain.new) }
{
    match until {
        Until::Closed => match drain.wait_next(rt) {
            Waited::Item(item) => Drained::Item(item),
            Waited::Stopped => Drained::Stopped,
        },
        Until::Whole => drain.wait_whole(rt),
    }
}

/// Takes the next item. Where none waits, all that is gathered is passed on before the next one is waited for.
fn next_item<R: Wait, H: Owed<Item>, S: Sink>(
    rt: &R,
    drain: &mut Drain<Item, H>,
    sink: &mut S,
    gathered: &mut Gathered,
    until: Until,
) -> Result<Item, WriteEnd>
    ensures took { IfOk result (λ item. drain.new.taken ≡ drain.old.taken ++ item ∷ []) }
    ensures none { OnErr result (drain.new.taken ≡ drain.old.taken) }
    ensures drain { IsLater H.begins drain.old drain.new }
    ensures held { OnOk result (HandsOver (output (S.seen sink.old).taken gathered.old.frames.items)
        (output (S.seen sink.new).taken gathered.new.frames.items)) }
    ensures ended { IfErr result (λ e. EndsBetween e
        (output (S.seen sink.old).taken gathered.old.frames.items) (S.seen sink.new).taken) }
    ensures stopped { result ≡ Err WriteEnd.Stopped
        → drain.old.empty_finds < drain.new.empty_finds }
    ensures whole { result ≡ Err WriteEnd.Stopped → until ≡ Until.Whole
        → TookWhole H.owed H.is_over H.was_cut drain.new }
    ensures full { result ≡ Err WriteEnd.Full
        → (until ≡ Until.Whole) × (drain.old.empty_finds < drain.new.empty_finds)
        × TookFull H.owed H.is_over H.was_cut drain.new }
    ensures lost { result ≡ Err WriteEnd.Lost
        → (until ≡ Until.Whole) × (drain.old.empty_finds < drain.new.empty_finds)
        × TookLost H.owed H.is_over H.was_cut drain.new }
    ensures dropped { result ≡ Err WriteEnd.Dropped
        → (until ≡ Until.Whole) × (drain.old.empty_finds < drain.new.empty_finds)
        × TookUnvouched H.owed H.is_over H.was_cut drain.new }
    ensures steps { Steps (write_meter (S.seen sink.old) gathered.old.turns)
        (write_meter (S.seen sink.new) gathered.new.turns) (told_by write_told result) }
{
    match drain.next(rt) {
        Next::Item(item) => return Ok(item),
        Next::Empty => {}
    }
    if let Err(end) = pass_on(sink, gathered) {
        return Err(end);
    }
    match wait(rt, drain, gathered, until) {
        Drained::Item(item) => Ok(item),
        Drained::Stopped => Err(WriteEnd::Stopped),
        Drained::Full => Err(WriteEnd::Full),
        Drained::Lost => Err(WriteEnd::Lost),
        Drained::Dropped => Err(WriteEnd::Dropped),
    }
}

/// The end for an item that can't be encoded. What is gathered is passed on.
fn give_up<S: Sink>(sink: &mut S, gathered: &mut Gathered, fault: Fault) -> WriteEnd
    requires { (fault ≡ Fault.NoMemory) ⊎ (fault ≡ Fault.TooLongForClient) }
    ensures ended { EndsWith fault result (output (S.seen sink.old).taken gathered.old.frames.items)
        (S.seen sink.new).taken }
    ensures steps { Steps (write_meter (S.seen sink.old) gathered.old.turns)
        (write_meter (S.seen sink.new) gathered.new.turns) (write_told result) }
{
    if let Err(end) = pass_on(sink, gathered) {
        return end;
    }
    match fault {
        Fault::NoMemory => WriteEnd::NoMemory,
        _ => WriteEnd::TooLong,
    }
}

/// Makes the frame of an item behind what is gathered. That is handed over once it is long, and where the frame's end lies elsewhere.
fn add_frame<S: Sink, W: Watch>(
    sink: &mut S,
    client: ClientTerms,
    item: &Item,
    gathered: &mut Gathered,
    watch: &mut W,
) -> Result<(), WriteEnd>
    requires limit { client.limit ≤ 16777215 }
    requires held { length gathered.old.frames.items < 65536 }
    ensures done { OnOk result (AddsFrame client item.now
        (output (S.seen sink.old).taken gathered.old.frames.items)
        (output (S.seen sink.new).taken gathered.new.frames.items)) }
    ensures ended { IfErr result (λ e. BreaksAt client e item.now
        (output (S.seen sink.old).taken gathered.old.frames.items) (S.seen sink.new).taken) }
    ensures silent { OnOk result (W.told watch.new ≡ W.told watch.old) }
    ensures told { IfErr result (λ e. GivesUp e item.now (W.told watch.old) (W.told watch.new)) }
    ensures steps { Steps (write_meter (S.seen sink.old) gathered.old.turns)
        (write_meter (S.seen sink.new) gathered.new.turns) (told_by write_told result) }
{
    match write_unless_large(
        gathered.alloc,
        client.serializer,
        client.limit,
        item,
        &mut gathered.frames,
    ) {
        Ok(None) if gathered.frames.len() < HELD => Ok(()),
        Ok(None) => hand_over(sink, gathered),
        Ok(Some(end)) => hand_over_large(sink, gathered, end),
        Err(fault) => {
            watch.gives_up(item, fault);
            Err(give_up(sink, gathered, fault))
        }
    }
}

/// Takes the next item, and makes its frame.
fn write_next<R: Wait, H: Owed<Item>, S: Sink, W: Watch>(
    rt: &R,
    drain: &mut Drain<Item, H>,
    sink: &mut S,
    client: ClientTerms,
    gathered: &mut Gathered,
    watch: &mut W,
    until: Until,
) -> Result<(), WriteEnd>
    requires limit { client.limit ≤ 16777215 }
    requires held { length gathered.old.frames.items < 65536 }
    ensures done { OnOk result (WritesSince drain.old.taken drain.new.taken (S.seen sink.old).taken
        (S.seen sink.new).taken
        (Passes client gathered.old.frames.items gathered.new.frames.items)) }
    ensures held { OnOk result (length gathered.new.frames.items < 65536) }
    ensures ended { IfErr result (λ e. WritesSince drain.old.taken drain.new.taken
        (S.seen sink.old).taken (S.seen sink.new).taken
        (EndsFrom client e gathered.old.frames.items)) }
    ensures told { OnOk result (TellsSince drain.old.taken drain.new.taken
        (W.told watch.old) (W.told watch.new) AreTold) }
    ensures told_all { IfErr result (λ e. TellsSince drain.old.taken drain.new.taken
        (W.told watch.old) (W.told watch.new) (AreToldBy e)) }
    ensures drain { IsLater H.begins drain.old drain.new }
    ensures stopped { result ≡ Err WriteEnd.Stopped
        → drain.old.empty_finds < drain.new.empty_finds }
    ensures whole { result ≡ Err WriteEnd.Stopped → until ≡ Until.Whole
        → TookWhole H.owed H.is_over H.was_cut drain.new }
    ensures full { result ≡ Err WriteEnd.Full
        → (until ≡ Until.Whole) × (drain.old.empty_finds < drain.new.empty_finds)
        × TookFull H.owed H.is_over H.was_cut drain.new }
    ensures lost { result ≡ Err WriteEnd.Lost
        → (until ≡ Until.Whole) × (drain.old.empty_finds < drain.new.empty_finds)
        × TookLost H.owed H.is_over H.was_cut drain.new }
    ensures dropped { result ≡ Err WriteEnd.Dropped
        → (until ≡ Until.Whole) × (drain.old.empty_finds < drain.new.empty_finds)
        × TookUnvouched H.owed H.is_over H.was_cut drain.new }
    ensures steps { Steps (write_meter (S.seen sink.old) gathered.old.turns)
        (write_meter (S.seen sink.new) gathered.new.turns) (told_by write_told result) }
{
    let item = match next_item(rt, drain, sink, gathered, until) {
        Ok(item) => item,
        Err(end) => return Err(end),
    };
    watch.takes(&item);
    if let Err(end) = add_frame(sink, client, &item, gathered, watch) {
        return Err(end);
    }
    watch.writes(&item);
    Ok(())
}

/// Takes items and writes their frames, one after another, until the outbox is closed and nothing is left in it, or something fails.
/// Frames are gathered, and handed to the device where they are 65,536 octets or more, or no item waits: so many items cost one write,
/// and nothing is held back while the next item is waited for. Unless the device fails, or its turns are used up, all that was made is
/// passed on before it ends. Nothing is tried again after a failure.
///
/// The limit is the most octets that the client takes in one payload.
pub fn write_items<R: Wait, H: Owed<Item>, S: Sink>(
    rt: &R,
    alloc: Global,
    drain: Drain<Item, H>,
    sink: &mut S,
    serializer: Serializer,
    limit: u32,
) -> (Drain<Item, H>, WriteEnd)
    requires { limit ≤ 16777215 }
    ensures written { WritesSince drain.taken result.0.taken (S.seen sink.old).taken
        (S.seen sink.new).taken (IsWrittenBy serializer limit result.1) }
    ensures drain { IsLater H.begins drain result.0 }
    ensures stopped { result.1 ≡ WriteEnd.Stopped → drain.empty_finds < result.0.empty_finds }
    ensures never_full { result.1 ≢ WriteEnd.Full }
    ensures never_lost { result.1 ≢ WriteEnd.Lost }
    ensures never { result.1 ≢ WriteEnd.Dropped }
    ensures writes { WriteSteps (S.seen sink.old) (S.seen sink.new) (write_told result.1) }
{
    write_until(
        rt,
        alloc,
        drain,
        sink,
        ClientTerms { serializer, limit },
        &mut Told::nothing(),
        Until::Closed,
    )
}

/// The same, while somebody watches, and until the outbox's other end came over: all that was added was taken then. Where a history came
/// with it, that vouches for it: it ends by [`WriteEnd::Stopped`] where that is all that the history owes, by [`WriteEnd::Lost`] where the
/// history cut the session though the outbox was never found full, and by [`WriteEnd::Full`] where it was. Else it ends by
/// [`WriteEnd::Dropped`].
pub fn write_watched<R: Wait, H: Owed<Item>, S: Sink, W: Watch>(
    rt: &R,
    alloc: Global,
    drain: Drain<Item, H>,
    sink: &mut S,
    serializer: Serializer,
    limit: u32,
    watch: &mut W,
) -> (Drain<Item, H>, WriteEnd)
    requires { limit ≤ 16777215 }
    ensures written { WritesSince drain.taken result.0.taken (S.seen sink.old).taken
        (S.seen sink.new).taken (IsWrittenBy serializer limit result.1) }
    ensures told { TellsSince drain.taken result.0.taken (W.told watch.old) (W.told watch.new)
        (AreToldBy result.1) }
    ensures drain { IsLater H.begins drain result.0 }
    ensures stopped { result.1 ≡ WriteEnd.Stopped → drain.empty_finds < result.0.empty_finds }
    ensures whole { result.1 ≡ WriteEnd.Stopped → TookWhole H.owed H.is_over H.was_cut result.0 }
    ensures full { result.1 ≡ WriteEnd.Full → (drain.empty_finds < result.0.empty_finds)
        × TookFull H.owed H.is_over H.was_cut result.0 }
    ensures lost { result.1 ≡ WriteEnd.Lost → (drain.empty_finds < result.0.empty_finds)
        × TookLost H.owed H.is_over H.was_cut result.0 }
    ensures dropped { result.1 ≡ WriteEnd.Dropped → (drain.empty_finds < result.0.empty_finds)
        × TookUnvouched H.owed H.is_over H.was_cut result.0 }
    ensures writes { WriteSteps (S.seen sink.old) (S.seen sink.new) (write_told result.1) }
{
    write_until(
        rt,
        alloc,
        drain,
        sink,
        ClientTerms { serializer, limit },
        watch,
        Until::Whole,
    )
}

/// Takes items and writes their frames, until there is to be none.
fn write_until<R: Wait, H: Owed<Item>, S: Sink, W: Watch>(
    rt: &R,
    alloc: Global,
    drain: Drain<Item, H>,
    sink: &mut S,
    client: ClientTerms,
    watch: &mut W,
    until: Until,
) -> (Drain<Item, H>, WriteEnd)
    requires { client.limit ≤ 16777215 }
    ensures written { WritesSince drain.taken result.0.taken (S.seen sink.old).taken
        (S.seen sink.new).taken (IsWrittenBy client.serializer client.limit result.1) }
    ensures told { TellsSince drain.taken result.0.taken (W.told watch.old) (W.told watch.new)
        (AreToldBy result.1) }
    ensures drain { IsLater H.begins drain result.0 }
    ensures stopped { result.1 ≡ WriteEnd.Stopped → drain.empty_finds < result.0.empty_finds }
    ensures whole { result.1 ≡ WriteEnd.Stopped → until ≡ Until.Whole
        → TookWhole H.owed H.is_over H.was_cut result.0 }
    ensures full { result.1 ≡ WriteEnd.Full
        → (until ≡ Until.Whole) × (drain.empty_finds < result.0.empty_finds)
        × TookFull H.owed H.is_over H.was_cut result.0 }
    ensures lost { result.1 ≡ WriteEnd.Lost
        → (until ≡ Until.Whole) × (drain.empty_finds < result.0.empty_finds)
        × TookLost H.owed H.is_over H.was_cut result.0 }
    ensures dropped { result.1 ≡ WriteEnd.Dropped
        → (until ≡ Until.Whole) × (drain.empty_finds < result.0.empty_finds)
        × TookUnvouched H.owed H.is_over H.was_cut result.0 }
    ensures writes { WriteSteps (S.seen sink.old) (S.seen sink.new) (write_told result.1) }
{
    let mut drain = drain;
    let mut gathered = Gathered::nothing(alloc);
    'items: for _ in rt.forever() {
        if let Err(end) = write_next(rt, &mut drain, sink, client, &mut gathered, watch, until) {
            watch.ends(gathered.octets);
            return (drain, end);
        }
    }
    unreachable!()
}
