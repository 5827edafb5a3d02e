//! How far a subscriber is.
ghost use Rattle.std.specs.Prelude.{◌≡◌, ◌≤◌, ℕ, List, MatchOption, Some, false, if◌then◌else◌, ⊤, true};
ghost use Rattle.client_commands.specs.Acts.{IsCountedOff, is_subscribed};
ghost use Rattle.client_commands.specs.Notes.{Noting};
ghost use Rattle.client_commands.specs.Reconnecting.{PrintsOnce, stage};
ghost use Rattle.client_commands.specs.declared.command.SubscribeCommand.{SubscribeCommand};

use crate::subscriptions::Granted;
use crate::timing::Timing;
use message_tree::Text;

/// How far a subscriber is, over all its connections.
#[derive(Clone, Copy, Debug, Drop)]
pub struct Listener {
    /// How many events are still to be printed, where that is limited.
    pub left: Option<u64>,
    /// Whether the broker gave each subscription on the last connection.
    pub is_subscribed: bool,
}

impl Listener {
    /// One that hasn't begun, and prints so many events, or any number.
    pub fn new(count: Option<u64>) -> Listener
        ensures left { result.left ≡ count }
        ensures unsubscribed { result.is_subscribed ≡ false }
    {
        Listener {
            left: count,
            is_subscribed: false,
        }
    }

    /// There was no connection: nothing is printed, and no subscription given.
    pub fn miss(&mut self)
        ensures { (command : SubscribeCommand) (lines : List ℕ) (notes : Noting)
            → PrintsOnce command (stage lines notes self.old.left) (stage lines notes self.new.left) }
    {
        self.is_subscribed = false;
    }

    /// Whether no event is left to be printed.
    pub(crate) fn is_done(&self) -> bool
        ensures done { result ≡ true → self.now.left ≡ Some 0 }
        ensures undone { result ≡ false → MatchOption self.now.left ⊤ (λ n. 1 ≤ n) }
    {
        match self.left {
            None => false,
            Some(left) => left == 0,
        }
    }

    /// Counts an event off.
    pub(crate) fn count_off(&mut self, is_event: bool)
        requires { MatchOption self.old.left ⊤ (λ n. 1 ≤ n) }
        ensures counted { IsCountedOff self.old.left self.new.left (if is_event then 1 else 0) }
        ensures same { self.new.is_subscribed ≡ self.old.is_subscribed }
    {
        if !is_event {
            return;
        }
        if let Some(left) = self.left {
            self.left = Some(left - 1);
        }
    }

    /// Notes whether each subscription is given. The first time that it is so, nothing is due any more.
    pub(crate) fn settle<T: Timing>(
        &mut self,
        topics: &Vec<Text>,
        granted: &Vec<Granted>,
        timing: &mut T,
    )
        ensures left { self.new.left ≡ self.old.left }
        ensures noted { self.new.is_subscribed ≡ is_subscribed topics.now.items granted.now.items }
    {
        let is_subscribed = granted.len() == topics.len();
        if is_subscribed && !self.is_subscribed {
            timing.expects(false);
        }
        self.is_subscribed = is_subscribed;
    }
}
