//! What a broker tells its operator: one line for each thing that happens to a connection, or to the broker.
//!
//! A line is `event key=value ..`, in printable ASCII, and ends by `at=`, which says when it was told, and LF. A value
//! is a number, a word, a time, or a text in quotes, in which a quote, a backslash and what isn't printable ASCII are
//! spelt by their octets, `\x0a`: so no word of a client's ends a line or a value.
//!
//! Contracts say of each line which octets it is.
#![tactic(auto)]

mod lines;
mod reason;
mod utc;
mod values;

pub use lines::{
    BrokerSummary, ConnectionEnd, Opening, RealmStats, RefusedRequest, Traffic, accept_failed,
    accepted, closed, listening, lost, opened, refused, request_refused, retained_full, started,
    stats, stopping,
};
pub use reason::{CloseReason, ConnectionRefusal, Stopping};
pub use utc::moment;
pub use values::end_line;
