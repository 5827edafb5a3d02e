//! Histories.

/// Histories, and which begins which. All members are facts: they take no bytes, and nothing runs.
pub trait History {
    /// The first history begins the second.
    ghost begins: { Self → Self → Type 0 };

    ghost begins_itself: { (h : Self) → begins h h };

    ghost begins_on: { (h k l : Self) → begins h k → begins k l → begins h l };
}
