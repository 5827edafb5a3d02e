//! What may cross between threads: bounds that the types have to meet.
use std::alloc::Global;
use std::io;

/// Called at a type that may be shared between threads.
pub fn may_be_shared<T: Send + Sync>() {}

/// Called at a type that may go to another thread.
pub fn may_be_sent<T: Send>() {}

/// What a driver answers that has called these.
pub fn crossing(alloc: Global) -> io::Result<String> {
    Ok(String::from_str(alloc, "may cross threads\n")?)
}
