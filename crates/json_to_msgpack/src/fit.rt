//! How a value was written.
ghost use Rattle.std.specs.Prelude.{◌≡◌};
ghost use Rattle.json_to_msgpack.specs.body.Fits.{is_read, is_within};

/// How a value was written.
#[derive(Clone, Copy, Drop)]
pub(crate) enum Fit {
    /// It nests within the room that is left for it, and stands there.
    Within,
    /// It nests deeper: null stands there in its place, which lasts if the key comes once more.
    TooDeep,
    /// A number in it is too large for a float, so that the text is no message, whatever else it is.
    Unreadable,
}

impl Fit {
    /// Whether the text may still be a message.
    #[inline(always)]
    pub(crate) fn is_read(self) -> bool
        ensures { result ≡ is_read self }
    {
        match self {
            Fit::Within | Fit::TooDeep => true,
            Fit::Unreadable => false,
        }
    }

    /// Whether it stands there as it is.
    #[inline(always)]
    pub(crate) fn is_within(self) -> bool
        ensures { result ≡ is_within self }
    {
        match self {
            Fit::Within => true,
            Fit::TooDeep | Fit::Unreadable => false,
        }
    }
}
