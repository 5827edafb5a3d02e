//! Why a value isn't written.
use std::alloc::AllocError;

/// Why nothing is written.
#[derive(Clone, Copy, Debug, Drop)]
pub(crate) enum TextRefusal {
    /// A growth was refused.
    NoMemory,
    /// The text is no JSON, or none that this crate turns.
    Unclear,
}

impl From<AllocError> for TextRefusal {
    fn from(_refused: AllocError) -> TextRefusal {
        TextRefusal::NoMemory
    }
}
