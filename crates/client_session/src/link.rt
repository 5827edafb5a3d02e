//! A link to a broker.
ghost use Rattle.std.specs.Prelude.{◌≡◌, ◌≢◌, ◌≤◌, ◌+◌, ◌++◌, ◌↔◌, [], length, IfOk, IfErr, IsTrue, OnOk, Ok, Err, true};
ghost use Rattle.rawsocket.specs.Steps.{ReadSteps, WriteSteps, told_by};
ghost use Rattle.session.specs.Opened.{exchanged};
ghost use Rattle.client_session.specs.Faults.{read_told, write_told};
ghost use Rattle.client_session.specs.Handshake.{IsRefused, Replies};
ghost use Rattle.client_session.specs.Hearing.{HearsNext, ListensNext, LookSteps, heard_at, terms};
ghost use Rattle.client_session.specs.Saying.{payload_of, saying, IsCutShort};
ghost use Rattle.rawsocket.specs.Devices.{Takes};

use crate::encoding::frame_of;
use crate::fault::Fault;
use crate::handshake::shake_hands;
use crate::inbox::{BrokerTerms, UnheardFrames, hear_next, listen_next};
use crate::sending::send;
use client_messages::{ClientMessage, Heard};
use rawsocket::devices::{PIECE, Sink, Source, Turns};
use rawsocket::{Deframer, Serializer};
use std::alloc::Global;
use std::collections::VecDeque;
use std::marker::Model;

/// How many octets the payload of a frame may have: all that its header can tell.
const TAKEN: usize = 0xff_ffff;

/// A link to a broker that accepted the handshake: how it serializes, how much it takes, and what came
/// from it and is not heard yet. The streams themselves are passed to each call, the same ones each time.
#[derive(Drop)]
pub struct Link {
    broker: BrokerTerms,
    inbox: UnheardFrames,
    /// Where the pieces of the stream are read into: one for all, since to make it costs more than to
    /// hear a short message.
    buffer: Vec<u8>,
}

impl Model for Link {
    ghost use Rattle.rawsocket.specs.Frames.{contents};
    ghost use Rattle.client_session.specs.Hearing.{IsReady, Line};

    ghost Value = { Line };

    ghost view = { λ l. record {
      serializer = l.broker.serializer;
      limit = l.broker.limit;
      waiting = contents l.inbox.waiting.items;
      held = l.inbox.deframer.held;
    } };

    ghost invariant = { λ l. IsReady l.broker.limit l.inbox.deframer l.buffer.items };
}

impl Link {
    /// Links to a broker: writes the handshake, and reads the four octets that it replies.
    ///
    /// # Errors
    /// [`Fault::Refused`] and [`Fault::NoBroker`] by what is replied; [`Fault::Ended`], [`Fault::ReadFault`],
    /// [`Fault::TooManyReads`], [`Fault::WriteFault`], [`Fault::TooManyWrites`] and [`Fault::NoMemory`] where
    /// the handshake wasn't written or the reply not read. The stream is to be closed then.
    pub fn connect<I: Source, O: Sink>(
        alloc: Global,
        source: &mut I,
        sink: &mut O,
        serializer: Serializer,
    ) -> Result<Link, Fault>
        ensures accepted { IfOk result (λ link. Replies serializer
            (exchanged (I.seen source.old) (O.seen sink.old))
            (exchanged (I.seen source.new) (O.seen sink.new)) (Ok link.limit)) }
        ensures new { IfOk result (λ link. link ≡ record {
          serializer = serializer;
          limit = link.limit;
          waiting = [];
          held = [];
        }) }
        ensures refused { IfErr result (IsRefused serializer
            (exchanged (I.seen source.old) (O.seen sink.old))
            (exchanged (I.seen source.new) (O.seen sink.new))) }
        ensures ended { result ≡ Err Fault.Ended → (I.seen source.new).is_ended ≡ true }
        ensures reads { ReadSteps (I.seen source.old) (I.seen source.new)
            (told_by read_told result) }
        ensures writes { WriteSteps (O.seen sink.old) (O.seen sink.new)
            (told_by write_told result) }
    {
        let mut reading = Turns::new();
        let mut writing = Turns::new();
        let limit = match shake_hands(alloc, serializer, source, sink, &mut reading, &mut writing) {
            Ok(limit) => limit,
            Err(fault) => return Err(fault),
        };
        let Ok(buffer) = vec![in alloc; 0; PIECE] else {
            return Err(Fault::NoMemory);
        };
        Ok(Link {
            broker: BrokerTerms { serializer, limit },
            inbox: UnheardFrames {
                waiting: VecDeque::new(alloc),
                deframer: Deframer::taking(alloc, TAKEN),
            },
            buffer,
        })
    }

    /// Says something: writes its message as one frame.
    ///
    /// # Errors
    /// Nothing is written where there is no message for it ([`Fault::Unsayable`]), where it is longer than
    /// the broker takes ([`Fault::TooLongForBroker`]), and for want of memory ([`Fault::NoMemory`]). After
    /// [`Fault::WriteFault`] or [`Fault::TooManyWrites`] a beginning of the frame may be written, and the
    /// stream is to be closed.
    pub fn say<O: Sink>(
        &self,
        alloc: Global,
        sink: &mut O,
        said: ClientMessage,
    ) -> Result<(), Fault>
        ensures said { OnOk result
            (Takes (O.seen sink.old) (O.seen sink.new) (saying self.now.serializer said)) }
        ensures fits { OnOk result
            (length (payload_of self.now.serializer said) ≤ self.now.limit) }
        ensures cut_short { IfErr result (IsCutShort (terms self.now.serializer self.now.limit) said
            (O.seen sink.old).taken (O.seen sink.new).taken) }
        ensures writes { WriteSteps (O.seen sink.old) (O.seen sink.new)
            (told_by write_told result) }
    {
        let frame = match frame_of(alloc, self.broker, said) {
            Ok(frame) => frame,
            Err(fault) => return Err(fault),
        };
        let mut writing = Turns::new();
        send(sink, &frame, &mut writing)
    }

    /// Whether all frames that came are heard: none waits for the next call.
    pub fn is_quiet(&self) -> bool
        ensures { IsTrue result ↔ (self.now.waiting ≡ []) }
    {
        self.inbox.waiting.is_empty()
    }

    /// Hears what the broker says by one look: at the frames that wait, or, where none waits, at the next octets of the stream, by one
    /// read. It is the next message, or nothing, where none is here yet. PINGs and PONGs are taken as by [`Link::hear`], and
    /// nothing is lost.
    ///
    /// # Errors
    /// As [`Link::hear`].
    pub fn listen<I: Source, O: Sink>(
        &mut self,
        alloc: Global,
        source: &mut I,
        sink: &mut O,
    ) -> Result<Option<Heard>, Fault>
        ensures next { ListensNext (terms self.old.serializer self.old.limit)
            (heard_at self.old (I.seen source.old) (O.seen sink.old))
            (heard_at self.new (I.seen source.new) (O.seen sink.new)) result }
        ensures unread { self.old.waiting ≢ [] → I.seen source.new ≡ I.seen source.old }
        ensures once { OnOk result (self.old.waiting ≡ [] →
            (I.seen source.new).calls ≡ (I.seen source.old).calls + 1) }
        ensures serializer { self.new.serializer ≡ self.old.serializer }
        ensures limit { self.new.limit ≡ self.old.limit }
        ensures ended { result ≡ Err Fault.Ended → (I.seen source.new).is_ended ≡ true }
        ensures reads { LookSteps (I.seen source.old) (I.seen source.new)
            (told_by read_told result) }
        ensures writes { WriteSteps (O.seen sink.old) (O.seen sink.new)
            (told_by write_told result) }
    {
        let broker = self.broker;
        let mut reading = Turns::of(1);
        let mut writing = Turns::new();
        listen_next(
            alloc,
            broker,
            &mut self.inbox,
            source,
            sink,
            &mut self.buffer,
            &mut reading,
            &mut writing,
        )
    }

    /// Hears the next message of the broker. A PING before it is answered by a PONG, a PONG is passed over.
    /// What was read behind the message waits for the next call, so that nothing is lost, but octets for
    /// which there was no memory.
    ///
    /// # Errors
    /// Each tells that no further message came before it.
    /// - [`Fault::TooDeep`], [`Fault::Malformed`], [`Fault::NoBrokerMessage`]: what comes next is no message
    ///   of a broker. It stays there.
    /// - [`Fault::FrameType`], [`Fault::FrameTooLong`]: it is no frame. It stays there.
    /// - [`Fault::TooLongForBroker`]: a PING has more octets than the broker takes in a PONG; none is written.
    /// - [`Fault::Ended`], [`Fault::ReadFault`], [`Fault::TooManyReads`]: the stream.
    /// - [`Fault::WriteFault`], [`Fault::TooManyWrites`], [`Fault::NoMemory`]: a PONG may not be written whole.
    pub fn hear<I: Source, O: Sink>(
        &mut self,
        alloc: Global,
        source: &mut I,
        sink: &mut O,
    ) -> Result<Heard, Fault>
        ensures next { HearsNext (terms self.old.serializer self.old.limit)
            (heard_at self.old (I.seen source.old) (O.seen sink.old))
            (heard_at self.new (I.seen source.new) (O.seen sink.new)) result }
        ensures serializer { self.new.serializer ≡ self.old.serializer }
        ensures limit { self.new.limit ≡ self.old.limit }
        ensures ended { result ≡ Err Fault.Ended → (I.seen source.new).is_ended ≡ true }
        ensures reads { ReadSteps (I.seen source.old) (I.seen source.new)
            (told_by read_told result) }
        ensures writes { WriteSteps (O.seen sink.old) (O.seen sink.new)
            (told_by write_told result) }
    {
        let broker = self.broker;
        let mut reading = Turns::new();
        let mut writing = Turns::new();
        hear_next(
            alloc,
            broker,
            &mut self.inbox,
            source,
            sink,
            &mut self.buffer,
            &mut reading,
            &mut writing,
        )
    }
}
