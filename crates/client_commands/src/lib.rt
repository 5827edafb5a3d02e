//! What `wampd subscribe` and `wampd publish` do, over any device.
//!
//! The session with a broker is `client_session`'s. Contracts say what is said to the broker and in which order, which
//! line is printed for which event, and that each failure of a device is told, with nothing tried again after it; the
//! device that notes go to is the one whose failures are passed over. Command lines, sockets and threads are for the
//! crates above.
#![tactic(auto)]

mod attending;
mod command;
mod controls;
mod event_lines;
mod fault;
mod file_input;
mod hearing;
mod joining;
mod leaving;
mod line_input;
mod listener;
mod message_args;
mod noting;
mod pacing;
mod publishing;
mod reconnecting;
mod subscribing;
mod subscriptions;
mod timing;
mod value;

pub use client_messages::{PublishWishes, SessionLists, SubscribeWishes};
pub use client_session::{Fault as LinkFault, Serializer};
pub use command::{Arguments, Contact, LineForm, PublishCommand, SubscribeCommand};
pub use event_lines::event_line;
pub use fault::Fault;
pub use file_input::{InputFault, whole_input};
pub use listener::Listener;
pub use publishing::publish;
pub use reconnecting::{Dialer, resubscribe, subscribe_once};
pub use subscribing::subscribe;
pub use timing::{Arrival, Timing};
pub use value::value_of;
