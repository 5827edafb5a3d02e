//! Threads that own their work, and what they give back.
ghost use Rattle.std.specs.Prelude.{◌≡◌, IfOk};

use std::alloc::AllocError;
use std::snapshot::Snapshot;
use std::sync::Wait;
use std::thread::{self, Promise, PromisedHandle, Threads};

/// What a thread is to do.
pub trait Task: Sized + Drop {
    /// What it gives back.
    type Done: Drop + Send + 'static;

    /// What holds of the task, as the thread was given it, and of what it gives back.
    ghost does: { Self → Self.Done → Type 0 };
}

/// Does it.
pub trait Work<R>: Task {
    fn run(self, rt: R) -> Self::Done
        ensures { Self.Task.does self result };
}

/// That this task is done.
#[derive(Drop)]
pub struct Doing<W>(pub Snapshot<W>);

impl<W: Task> Promise<W::Done> for Doing<W> {
    ghost kept_by = { λ p done. W.does p.0.value done };
}

/// Starts a thread that does the work. Who joins it learns what the work is done to.
///
/// # Errors
/// Where no thread can be made. The work is dropped.
pub fn start<R: Threads + Wait + Copy + Send + 'static, W: Work<R> + Send + 'static>(
    rt: R,
    work: W,
) -> Result<PromisedHandle<W::Done, Doing<W>>, AllocError>
    ensures { IfOk result (λ thread. thread.promise.0.value ≡ work) }
{
    let doing = Doing(Snapshot::of(&work));
    let thread = thread::spawn_with(&rt, doing, move || work.run(rt))?;
    Ok(thread)
}
