//! The places of standard streams that the program was started without.
use std::fs::{File, OpenOptions};
use std::io;
use std::os::fd::AsRawFd;

/// What can be opened everywhere, and holds nothing.
const NOTHING: &str = "/dev/null";

/// Takes the places of standard streams that are closed, so that no connection gets one: what people are told would go to its peer.
/// Whoever reads such an input or writes such an output still fails. Where nothing can be opened, nothing is taken.
pub fn fill_closed(host: &HostRuntime) -> [Option<File>; 3] {
    let unread = OpenOptions::new().write(true).open(host, NOTHING);
    let input = kept_below(1, unread);
    let one = kept_below(3, File::open(host, NOTHING));
    let other = kept_below(3, File::open(host, NOTHING));
    [input, one, other]
}

/// A file that was opened, if it has one of the first places; another one is closed.
fn kept_below(end: i32, opened: io::Result<File>) -> Option<File> {
    let file = opened.ok()?;
    if file.as_raw_fd() < end {
        Some(file)
    } else {
        None
    }
}
