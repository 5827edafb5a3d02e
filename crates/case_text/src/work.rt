//! Threads that own their work.
use std::alloc::AllocError;
use std::sync::Wait;
use std::thread::{self, JoinHandle, Threads};

/// What a thread does with what it owns, and what comes of it.
pub trait Work<R, T>: Sized + Drop {
    fn run(self, rt: R) -> T;
}

/// Starts a thread that does the work.
///
/// # Errors
/// Where no thread can be made. The work is dropped.
pub fn start<R, T, W>(rt: R, work: W) -> Result<JoinHandle<T>, AllocError>
where
    R: Threads + Wait + Copy + Send + 'static,
    T: Drop + Send + 'static,
    W: Work<R, T> + Send + 'static,
{
    let handle = thread::spawn(&rt, move || work.run(rt))?;
    Ok(handle)
}
