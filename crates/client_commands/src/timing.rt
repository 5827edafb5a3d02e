//! The time that a command takes.

/// From where something came.
#[derive(Clone, Copy, Debug, Drop, PartialEq, Eq)]
pub enum Arrival {
    /// From the broker: octets, or the end of its stream.
    Broker,
    /// From the input that is published: octets, or its end.
    Input,
}

/// How long a command waits. What is said, heard and printed is the same however long that is.
pub trait Timing {
    /// The answers to what was published are waited for from here on.
    fn awaits(&mut self);

    /// They came. Waits as long as is needed for those who hear what was published to catch up: the longer the answers took, the
    /// more else the machine has to do.
    fn rest(&mut self);

    /// What the broker says next is due at once, or it may never come.
    fn expects(&mut self, is_due: bool);

    /// Waits until something comes from the broker or the input, and tells from which; from the broker, where it comes from both.
    /// What came from the broker in frames that wait to be heard (`is_held`) is here already.
    fn waits(&mut self, is_held: bool) -> Arrival;
}
