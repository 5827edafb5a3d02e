//! The log: who tells its lines, and the thread that writes them.
use crate::board::{Board, boards_of};
use crate::stats::{Teller, Telling};
use crate::work::{Task, Work, start};
use crossbeam_channel::{Receiver, RecvTimeoutError, Sender, bounded};
use log_lines::{end_line, lost, moment};
use rawsocket::devices::{Sink, Turns, send};
use std::alloc::{AllocError, Global};
use std::sync::atomic::{AtomicBool, AtomicU64, Ordering};
use std::sync::{Arc, Wait};
use std::thread::Threads;
use std::time::{Clock, Duration};

/// How many lines may wait to be written.
const MOST_LINES: usize = 1024;

/// What the two sides of a log share.
#[derive(Drop)]
pub(crate) struct LogState {
    // How many lines were lost since that was last told.
    lost: AtomicU64,
    // Whether the writing thread is over.
    is_over: AtomicBool,
    // Of each realm, where they are told of from time to time.
    pub(crate) boards: Vec<Board>,
}

/// Tells lines to a thread that writes them. Who tells one never waits for that: a line for which there is no room among those that wait, or
/// no memory, is lost, and later lines say how many were.
#[derive(Drop)]
pub struct Log {
    alloc: Global,
    sender: Sender<Vec<u8>>,
    shared: Arc<LogState>,
}

/// Says whether all that was told to a log is written.
#[derive(Drop)]
pub struct LogEnd {
    shared: Arc<LogState>,
}

impl LogEnd {
    /// Whether it is: the log was dropped, and so was what waited.
    pub fn is_over(&self) -> bool {
        self.shared.is_over.load(Ordering::SeqCst)
    }
}

impl Log {
    /// A log that is written to this sink by a thread of its own, as long as anybody can tell it anything. A sink that fails loses lines, and
    /// one that takes nothing has all wait, and then lose, that comes; neither is told to anybody.
    ///
    /// # Errors
    /// [`AllocError`] where memory or a thread is refused.
    pub fn start<
        R: Threads + Wait + Clock + Copy + Send + 'static,
        S: Sink + Drop + Send + 'static,
    >(rt: R, alloc: Global, sink: S) -> Result<(Log, LogEnd), AllocError> {
        Log::start_telling(rt, alloc, sink, None)
    }

    /// The same. Where `telling` says so, it tells of each realm from time to time, by a line for each: what there is, and what was done
    /// since the line before. Where the sink takes nothing, a line of them is written once it does, as it is then.
    ///
    /// # Errors
    /// As for [`Log::start`].
    pub fn start_telling<
        R: Threads + Wait + Clock + Copy + Send + 'static,
        S: Sink + Drop + Send + 'static,
    >(
        rt: R,
        alloc: Global,
        sink: S,
        telling: Option<Telling>,
    ) -> Result<(Log, LogEnd), AllocError> {
        let (sender, receiver) = bounded(alloc, MOST_LINES)?;
        let realms = match &telling {
            Some(telling) => telling.realms.len(),
            None => 0,
        };
        let shared = Arc::new(
            alloc,
            LogState {
                lost: AtomicU64::new(0),
                is_over: AtomicBool::new(false),
                boards: boards_of(alloc, realms)?,
            },
        )?;
        let teller = match telling {
            Some(telling) => Some(Teller::new(alloc, telling)?),
            None => None,
        };
        let writer = LogWriter {
            alloc,
            receiver,
            shared: Arc::try_clone(&shared)?,
            sink,
            teller,
        };
        let end = LogEnd {
            shared: Arc::try_clone(&shared)?,
        };
        let thread = start(rt, writer)?;
        drop(thread);
        Ok((
            Log {
                alloc,
                sender,
                shared,
            },
            end,
        ))
    }

    /// Where the memory of its lines comes from.
    pub fn alloc(&self) -> Global {
        self.alloc
    }

    /// The board of the realm at this place, where the log tells of realms.
    pub fn board(&self, realm: usize) -> Option<&Board> {
        self.shared.boards.get(realm)
    }

    /// Tells a line, without its end, or that there was no memory for it.
    pub fn tell<R: Wait + Clock>(&self, rt: &R, line: Result<Vec<u8>, AllocError>) {
        let is_told = match ended(rt, self.alloc, line) {
            Ok(line) => self.sender.try_send(rt, line).is_ok(),
            Err(_) => false,
        };
        if !is_told {
            self.shared.lost.fetch_add(1, Ordering::SeqCst);
        }
    }
}

// The line with its end, which says when it was told.
pub(crate) fn ended<R: Clock>(
    rt: &R,
    alloc: Global,
    line: Result<Vec<u8>, AllocError>,
) -> Result<Vec<u8>, AllocError> {
    let mut line = line?;
    let now = rt.since_1970().unwrap_or(Duration::ZERO);
    let at = moment(alloc, now)?;
    end_line(&mut line, at.as_str())?;
    Ok(line)
}

/// What the thread has that writes a log.
#[derive(Drop)]
struct LogWriter<S> {
    alloc: Global,
    receiver: Receiver<Vec<u8>>,
    shared: Arc<LogState>,
    sink: S,
    // Tells of realms, if it does.
    teller: Option<Teller>,
}

impl<S: Sink + Drop> Task for LogWriter<S> {
    ghost use Rattle.std.specs.Prelude.{⊤};

    type Done = ();

    ghost does = { λ w done. ⊤ };
}

impl<R: Wait + Clock + Copy, S: Sink + Drop> Work<R> for LogWriter<S> {
    ghost use Rattle.std.specs.Prelude.{⊤};

    /// Writes each line, as long as anybody can tell one.
    fn run(self, rt: R)
        ensures { ⊤ }
    {
        let LogWriter {
            alloc,
            receiver,
            shared,
            mut sink,
            teller,
        } = self;
        match teller {
            None => write_lines(&rt, alloc, &receiver, &shared, &mut sink),
            Some(mut teller) => {
                write_and_tell(&rt, alloc, &receiver, &shared, &mut sink, &mut teller)
            }
        }
        write_lost(&rt, alloc, &shared, &mut sink);
        shared.is_over.store(true, Ordering::SeqCst);
    }
}

// Writes each line, and before it how many were lost.
fn write_lines<R: Wait + Clock, S: Sink>(
    rt: &R,
    alloc: Global,
    receiver: &Receiver<Vec<u8>>,
    shared: &LogState,
    sink: &mut S,
) {
    for _ in rt.forever() {
        let Ok(line) = receiver.recv(rt) else {
            return;
        };
        write_lost(rt, alloc, shared, sink);
        write_line(sink, &line);
    }
    unreachable!()
}

// The same, and tells of the realms from time to time.
fn write_and_tell<R: Wait + Clock, S: Sink>(
    rt: &R,
    alloc: Global,
    receiver: &Receiver<Vec<u8>>,
    shared: &LogState,
    sink: &mut S,
    teller: &mut Teller,
) {
    for _ in rt.forever() {
        match receiver.recv_timeout(rt, teller.patience(rt)) {
            Ok(line) => {
                write_lost(rt, alloc, shared, sink);
                write_line(sink, &line);
            }
            Err(RecvTimeoutError::Timeout) => {}
            Err(RecvTimeoutError::Disconnected) => return,
        }
        if teller.is_due(rt, &shared.boards) {
            write_stats(rt, alloc, shared, sink, teller);
        }
    }
    unreachable!()
}

// Writes a line of each realm.
fn write_stats<R: Clock, S: Sink>(
    rt: &R,
    alloc: Global,
    shared: &LogState,
    sink: &mut S,
    teller: &mut Teller,
) {
    for realm in 0..shared.boards.len() {
        let line = teller.line(alloc, &shared.boards, realm);
        match ended(rt, alloc, line) {
            Ok(line) => write_line(sink, &line),
            Err(_) => {
                shared.lost.fetch_add(1, Ordering::SeqCst);
            }
        }
    }
}

fn write_line<S: Sink>(sink: &mut S, line: &[u8]) {
    let _ = send(sink, line, &mut Turns::new());
}

// Writes how many lines were lost, if any were.
fn write_lost<R: Clock, S: Sink>(rt: &R, alloc: Global, shared: &LogState, sink: &mut S) {
    let count = shared.lost.swap(0, Ordering::SeqCst);
    if count == 0 {
        return;
    }
    if let Ok(line) = ended(rt, alloc, lost(alloc, count)) {
        write_line(sink, &line);
    }
}
