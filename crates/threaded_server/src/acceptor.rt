//! Where streams come from.
ghost use Rattle.std.specs.Prelude.{◌≡◌, ◌++◌, ◌∷◌, [], length, MatchResult};
ghost use Rattle.threaded_server.specs.Answers.{answer_of};
ghost use Rattle.threaded_server.specs.Lending.{returned, returned_to, with_lent, with_refused, with_returned};

use crate::answer::Answer;
use broker_threads::{Closed, StreamFate};
use rawsocket::devices::{Sink, Source};
use realm_inbox::Shut;
use std::alloc::{AllocError, Global};

/// What accepting gave.
#[derive(Drop)]
pub enum Accepted<T> {
    /// A client's stream.
    Stream(T),
    /// To accept no more.
    Stop,
    /// No stream: the device failed.
    Failed,
}

impl<T> Accepted<T> {
    /// The answer, without the stream.
    pub fn answer(&self) -> Answer
        ensures { result ≡ answer_of self.now }
    {
        match self {
            Accepted::Stream(_) => Answer::Came,
            Accepted::Stop => Answer::Stopped,
            Accepted::Failed => Answer::Failed,
        }
    }
}

/// A stream, taken apart for the threads that use it.
#[derive(Drop)]
pub struct Parts<I, O, S> {
    /// What its client sends.
    pub source: I,
    /// What its client is sent.
    pub sink: O,
    /// The handle by which other threads end it.
    pub shut: S,
}

/// Gives the streams of clients, one after another, and tells when to stop.
pub trait Acceptor {
    ghost use Rattle.std.specs.Prelude.{List, ℕ};
    ghost use Rattle.threaded_server.specs.Lending.{Lending};
    ghost use Rattle.threaded_server.specs.declared.answer.Answer.{Answer};

    /// A stream that was accepted. One that is dropped is closed.
    type Stream: Drop;

    type Source: Source + Drop + Send + 'static;

    type Sink: Sink + Drop + Send + 'static;

    type Shut: Shut + Send + 'static;

    /// What accepting answered so far, the oldest first.
    ghost answers: { Self → List Answer };

    /// The streams that were taken apart, and those of them that were let go of.
    ghost lending: { Self → Lending Self.Source Self.Sink };

    /// How many streams had been let go of when accepting was asked last.
    ghost asked: { Self → ℕ };

    /// Waits for the next stream, or to be told to stop.
    fn accept(&mut self) -> Accepted<Self::Stream>
        ensures answers { answers self.new ≡ answers self.old ++ answer_of result ∷ [] }
        ensures lending { lending self.new ≡ lending self.old }
        ensures asked { asked self.new ≡ length (returned_to (lending self.old)) };

    /// Takes a stream apart. The parts share it: once it is shut, its source has ended and its sink fails. It is closed when the last
    /// part is dropped.
    ///
    /// # Errors
    /// Where a growth of memory was refused. The stream is closed then.
    fn split(
        &mut self,
        alloc: Global,
        stream: Self::Stream,
    ) -> Result<Parts<Self::Source, Self::Sink, Self::Shut>, AllocError>
        ensures answers { answers self.new ≡ answers self.old }
        ensures lending { MatchResult result
            (λ parts. lending self.new ≡ with_lent (lending self.old) (parts.source, parts.sink))
            (λ _. lending self.new ≡ with_refused (lending self.old)) }
        ensures asked { asked self.new ≡ asked self.old };

    /// Takes back what is left of a stream, once both of its halves were let go of, and is told what became of it.
    fn take_back(
        &mut self,
        source: Closed<Self::Source>,
        sink: Closed<Self::Sink>,
        fate: StreamFate,
    )
        ensures answers { answers self.new ≡ answers self.old }
        ensures lending { lending self.new ≡ with_returned (lending self.old)
            (returned source.last.value sink.last.value fate) }
        ensures asked { asked self.new ≡ asked self.old };

    /// Who is at the other end of a stream, in words: empty where that isn't known. `None` where memory was refused.
    fn peer(&self, alloc: Global, _stream: &Self::Stream) -> Option<String> {
        Some(String::new(alloc))
    }

    /// Why accepting failed the last time that it did, in words: empty where that isn't known. `None` where memory was refused.
    fn failure(&self, alloc: Global) -> Option<String> {
        Some(String::new(alloc))
    }

    /// A pause after a failure, before accepting is tried again: so many failures there were in a row, that one included.
    fn pause(&mut self, failures: u32)
        ensures answers { answers self.new ≡ answers self.old }
        ensures lending { lending self.new ≡ lending self.old }
        ensures asked { asked self.new ≡ asked self.old };
}
