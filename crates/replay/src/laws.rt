//! What holds of every replay, by the definitions alone. These functions do nothing: each is there
//! for its contract.
ghost use Rattle.replay.specs.Laws.{NumbersAreDecimal, OneTranscript};

/// Lines have one transcript: from one beginning they lead to one replay, and one text is printed
/// for them.
pub fn one_transcript()
    ensures { OneTranscript }
{}

/// The number of a line is read where the octets are what one of 1 to 256 is written as in decimal,
/// and nowhere else.
pub fn numbers_are_decimal()
    ensures { NumbersAreDecimal }
{}
