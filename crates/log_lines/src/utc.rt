//! When a line was told.
use jiff::Timestamp;
use std::alloc::{AllocError, Global};
use std::time::Duration;

/// A moment as a line tells it, in UTC: `2026-11-30T15:38:12.123Z`. It is so long behind the beginning of 1970; one that the calendar
/// doesn't reach is told as that beginning.
///
/// # Errors
/// [`AllocError`] where a growth of memory was refused.
pub fn moment(alloc: Global, since_1970: Duration) -> Result<String, AllocError> {
    let seconds = i64::try_from(since_1970.as_secs()).unwrap_or(0);
    let second = Timestamp::from_second(seconds).unwrap_or(Timestamp::UNIX_EPOCH);
    let millis = since_1970.subsec_millis();
    let text = format!(in alloc; "{second}")?;
    let front = text.as_str().trim_end_matches('Z');
    format!(in alloc; "{front}.{millis:03}Z")
}
