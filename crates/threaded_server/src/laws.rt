//! Laws of what a broker served.
ghost use Rattle.threaded_server.specs.OwnStreams.{NamesAreOwn, StreamsAreOwn, StreamsGoOn};

use realm_inbox::Shut;
use std::marker::PhantomData;

/// Each stream comes back under the name that it was lent under, and what it gave and took before it was lent begins what it gave and took when it came back.
pub fn streams_go_on<I, O, S: Shut>(_halves: PhantomData<(I, O)>, _transport: PhantomData<S>)
    ensures { StreamsGoOn I O S }
{}

/// No stream comes back in place of another: where neither of what two took before begins the other, what one took in the end doesn't
/// begin with what the other took before. So one who lends streams under names of their own finds each under its own.
pub fn streams_are_own<I, O, S: Shut>(_halves: PhantomData<(I, O)>, _transport: PhantomData<S>)
    ensures { StreamsAreOwn I O S }
{}

/// Nor in place of one of another name: where no two streams that were lent have one name, what came back of a name is what was lent
/// under it.
pub fn names_are_own<I, O, S: Shut>(_halves: PhantomData<(I, O)>, _transport: PhantomData<S>)
    ensures { NamesAreOwn I O S }
{}
