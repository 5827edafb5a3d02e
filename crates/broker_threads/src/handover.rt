//! What a connection's reader and the accepting thread share.
ghost use Rattle.std.specs.Prelude.{◌≡◌, None, Some, MatchOption, set, slice_get};
ghost use Rattle.std.specs.Option.{option_flatten};

use realm_inbox::{Poster, Shut};
use std::alloc::{AllocError, Global};
use std::sync::atomic::AtomicBool;
use std::sync::{Arc, Mutex, Wait};

/// The posters of a connection, one of each realm, in the order of the realms. One that is in use isn't here.
pub type Posters<S> = Vec<Option<Poster<S>>>;

/// What a connection's reader and the accepting thread share of its stream.
#[derive(Drop)]
pub struct SharedTransport<S> {
    // The handle by which the accepting thread ends the stream, until one of the two threads has taken it out: who ends the stream, or
    // finds it ended. So the stream isn't kept open by it. The lock is held only while the handle is moved in or out: it is used and
    // dropped behind it.
    transport: Arc<Mutex<Option<S>>>,
    /// Set last of all by the reader; and before it begins, where no thread could be made for it: then it does nothing.
    pub is_over: Arc<AtomicBool>,
}

impl<S: Shut> SharedTransport<S> {
    /// Of a stream that isn't over.
    ///
    /// # Errors
    /// Where memory was refused.
    pub fn new(alloc: Global, transport: S) -> Result<SharedTransport<S>, AllocError> {
        Ok(SharedTransport {
            transport: Arc::new(alloc, Mutex::new(Some(transport)))?,
            is_over: Arc::new(alloc, AtomicBool::new(false))?,
        })
    }

    /// The same, for the other thread.
    ///
    /// # Errors
    /// Where memory was refused.
    pub fn another(&self) -> Result<SharedTransport<S>, AllocError> {
        Ok(SharedTransport {
            transport: Arc::try_clone(&self.transport)?,
            is_over: Arc::try_clone(&self.is_over)?,
        })
    }

    /// Ends the stream, unless that is over.
    pub fn end_stream<R: Wait>(&self, rt: &R) {
        if let Some(transport) = self.take_transport(rt) {
            transport.shut();
        }
    }

    /// The handle by which the accepting thread ends the stream, if it is still here.
    pub fn take_transport<R: Wait>(&self, rt: &R) -> Option<S> {
        self.transport.lock(rt).take()
    }
}

/// Takes the poster of the realm at this place, if it is here.
pub fn take_poster<S: Shut>(posters: &mut Posters<S>, realm: usize) -> Option<Poster<S>>
    ensures there { option_flatten (slice_get posters.old.items realm) ≡ result }
    ensures taken { MatchOption result (posters.new.items ≡ posters.old.items)
        (λ p. (slice_get posters.old.items realm ≡ Some (Some p))
        × (posters.new.items ≡ set posters.old.items realm None)) }
{
    match posters.get_mut(realm) {
        Some(place) => place.take(),
        None => None,
    }
}

/// Puts the poster of the realm at this place back, where there is such a realm.
pub fn put_poster<S: Shut>(posters: &mut Posters<S>, realm: usize, poster: Poster<S>)
    ensures { posters.new.items ≡ set posters.old.items realm (Some poster) }
{
    if let Some(place) = posters.get_mut(realm) {
        *place = Some(poster);
    }
}
