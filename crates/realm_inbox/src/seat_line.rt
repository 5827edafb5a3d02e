//! Posts that wait one behind another.
ghost use Rattle.std.specs.Prelude.{◌≡◌, ◌≢◌, ◌++◌, ◌∷◌, [], true, false, MatchOption};

use crate::letter::Post;
use crate::transport::Shut;
use std::alloc::Global;
use std::collections::VecDeque;

/// A line with room for so many posts keeps it when nobody waits any more.
const KEPT: usize = 64;

/// A line of posts, the oldest first.
#[derive(Drop)]
pub(crate) struct SeatLine<S: Shut> {
    pub(crate) posts: VecDeque<Post<S>>,
}

impl<S: Shut> SeatLine<S> {
    /// Nobody waits. It takes no memory.
    pub(crate) fn new(alloc: Global) -> SeatLine<S>
        ensures { result.posts.items ≡ [] }
    {
        SeatLine {
            posts: VecDeque::new(alloc),
        }
    }

    /// Whether nobody waits.
    pub(crate) fn is_empty(&self) -> bool
        ensures none { result ≡ true → self.now.posts.items ≡ [] }
        ensures some { result ≡ false → self.now.posts.items ≢ [] }
    {
        self.posts.is_empty()
    }

    /// Puts a post behind the others. It comes back where there was no memory for that.
    pub(crate) fn push(&mut self, post: Post<S>) -> Option<Post<S>>
        ensures { MatchOption result (self.new.posts.items ≡ self.old.posts.items ++ post ∷ [])
            (λ back. (back ≡ post) × (self.new.posts.items ≡ self.old.posts.items)) }
    {
        if self.posts.try_reserve(1).is_err() {
            return Some(post);
        }
        self.posts.push_back_reserved(post);
        None
    }

    /// The first post.
    pub(crate) fn first(&self) -> Option<&Post<S>> {
        self.posts.front()
    }

    /// The first post, which leaves. Behind the last one of many the line gives its room back.
    pub(crate) fn pop(&mut self) -> Option<Post<S>>
        ensures { MatchOption result ((self.old.posts.items ≡ []) × (self.new.posts.items ≡ []))
            (λ p. self.old.posts.items ≡ p ∷ self.new.posts.items) }
    {
        let first = self.posts.pop_front();
        give_room_back(&mut self.posts);
        first
    }
}

// Gives the room of many posts back where nobody waits: else each seat would keep it once its client had much to say.
fn give_room_back<S: Shut>(posts: &mut VecDeque<Post<S>>)
    ensures { posts.new.items ≡ posts.old.items }
{
    if posts.is_empty() && posts.capacity() > KEPT {
        posts.shrink_to(0);
    }
}
