//! What is done at a desk: posts come through, and are handled.
ghost use Rattle.std.specs.Prelude.{◌≡◌, IfOk, IfErr, IfSome, true};
ghost use mathlib.Core.List.{IsPrefix};
ghost use Rattle.wamp_ids.specs.Numbers.{seat_of};
ghost use Rattle.realm_inbox.specs.EndViews.{received, posted, poster_conn, inbox_of, inbox_of_poster};
ghost use Rattle.realm_inbox.specs.Seats.{BringsOwn, at_seat};
ghost use Rattle.realm_inbox.specs.declared.act.Act.TheVariants.{Join as AJoin};
ghost use Rattle.realm_inbox.specs.declared.joining.Joining.{Joining as AJoining};
ghost use Rattle.realm_actor.specs.LastCut.{outbox_of};
ghost use Rattle.realm_actor.specs.OutboxHistory.{Box};
ghost use Rattle.realm_actor.specs.Settle.{IsOther, Settles};
ghost use Rattle.realm_actor.specs.declared.outcome.Outcome.TheVariants.{Applied as IsApplied};
ghost use Rattle.cases_actor.specs.Posts.{BringsNone, is_of};
ghost use Rattle.cases_actor.specs.Desks.{AllCame, GoesOn, InStep};
ghost use Rattle.case_posts.specs.declared.wire.Wire.{Wire as AWire};

use crate::settling::desk::Desk;
use case_posts::Wire;
use outbox_queue::{Drain, Rest};
use realm_actor::Outcome;
use realm_inbox::{Act, Post, Poster, RealmHistory};
use session::Item;
use std::alloc::{AllocError, Global};
use std::sync::Wait;
use wamp_ids::Conn;

// Whether it is an act of the connection.
fn is_of(post: &Post<Wire>, conn: Conn) -> bool
    ensures { result ≡ is_of conn post.now }
{
    match post {
        Post::Act(letter) => letter.conn() == conn,
        Post::Stop(_) => false,
    }
}

impl Desk {
    /// Handles the next post. None where each sender is gone.
    pub fn handle<R: Wait>(&mut self, rt: &R, alloc: Global) -> Option<Outcome>
        requires { InStep self.old }
        ensures { GoesOn self.old self.new }
    {
        let post = self.inbox.receive(rt)?;
        Some(self.actor.handle(rt, alloc, post))
    }

    /// Posts an act of a connection of whose seat all was received, and handles the next post. The poster comes back where that was
    /// this act.
    pub fn pass<R: Wait>(
        &mut self,
        rt: &R,
        alloc: Global,
        mut poster: Poster<Wire>,
        act: Act<Wire>,
    ) -> Option<(Outcome, Poster<Wire>)>
        requires same { InStep self.old }
        requires own { BringsOwn (poster_conn poster) act }
        requires home { BringsNone act }
        requires came { AllCame self.old poster }
        ensures goes_on { GoesOn self.old self.new }
        ensures poster { IfSome result (λ r. (poster_conn r.1 ≡ poster_conn poster)
            × AllCame self.new r.1) }
        ensures joined { IfSome result (λ r. (joining : AJoining AWire) → act ≡ AJoin joining
            → r.0 ≡ IsApplied → (p : Box)
            × (outbox_of self.new.actor.rows (poster_conn poster) ≡ Some p)
            × (p.queue ≡ joining.outbox.queue)) }
    {
        let Ok(()) = poster.post(rt, act, 0) else {
            return None;
        };
        let post = self.inbox.receive(rt)?;
        self.inbox.compare(&mut poster);
        let is_own = is_of(&post, poster.conn());
        let outcome = self.actor.handle(rt, alloc, post);
        if is_own {
            return Some((outcome, poster));
        }
        None
    }

    /// Tells what was received of a poster's seat.
    pub fn compare(&mut self, poster: &mut Poster<Wire>)
        requires inbox { inbox_of self.old.inbox ≡ inbox_of_poster poster.old }
        ensures begins { IsPrefix
            (at_seat (seat_of (poster_conn poster.new)) (received self.new.inbox))
            (posted poster.new) }
        ensures poster { (poster_conn poster.new ≡ poster_conn poster.old)
            × (posted poster.new ≡ posted poster.old)
            × (inbox_of_poster poster.new ≡ inbox_of_poster poster.old) }
        ensures same { (self.new.actor ≡ self.old.actor)
            × (received self.new.inbox ≡ received self.old.inbox)
            × (inbox_of self.new.inbox ≡ inbox_of self.old.inbox) }
    {
        self.inbox.compare(poster);
    }

    /// Puts the outbox of the drain's connection and the drain together again.
    pub fn settle<R: Wait>(
        &mut self,
        rt: &R,
        alloc: Global,
        drain: Drain<Item, RealmHistory>,
    ) -> Result<Rest<Item>, (AllocError, Drain<Item, RealmHistory>)>
        requires { IsOther drain (outbox_of self.old.actor.rows drain.conn) }
        ensures ok { IfOk result (λ rest.
            Settles drain.conn drain rest.items.items self.old.actor self.new.actor) }
        ensures err { IfErr result (λ back. (self.new.actor ≡ self.old.actor) × (back.1 ≡ drain)) }
        ensures inbox { self.new.inbox ≡ self.old.inbox }
    {
        self.actor.settle(rt, alloc, drain)
    }

    /// Whether the connection's outbox is held.
    pub fn holds(&self, conn: Conn) -> bool {
        self.actor.holds(conn)
    }

    /// Whom the last post found full, or cut.
    pub fn last_cut(&self) -> &[Conn] {
        self.actor.last_cut()
    }
}
