//! Transports that are only numbers.
use realm_inbox::Shut;

/// A transport, known by its number.
#[derive(Clone, Copy, Drop)]
pub struct Wire {
    pub number: u64,
}

impl Shut for Wire {
    fn shut(&self) {}

    fn twin(&self) -> Option<Wire> {
        Some(*self)
    }
}
