//! What the drivers of `realm_actor` share: transports that are flags, words that are counted, the parts of a line,
//! acts and what a Join brings, and how it is told what came of a post.
#![tactic(auto)]

mod acts;
mod counted;
mod parts;
mod watching;
mod wire;

pub use acts::{Entrance, act_of, entrance_of};
pub use counted::Counted;
pub use parts::{capacity, conn_and_rest};
pub use watching::Watching;
pub use wire::Wire;
