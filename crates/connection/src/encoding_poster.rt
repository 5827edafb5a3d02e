//! Events are encoded once for many receivers, before they are posted.
ghost use Rattle.std.specs.Prelude.{◌≡◌, ◌∷◌, ◌++◌, ◌+◌, [], MatchResult, false};
ghost use Rattle.realm_inbox.specs.Joins.{is_join};
ghost use Rattle.realm_inbox.specs.Posted.{with_acts};

use crate::in_use::{InUse, Using};
use rawsocket::Serializer;
use realm_inbox::{Act, Posting, Shut};
use std::alloc::Global;
use std::sync::Wait;
use wamp_messages::{Publish, Said};

/// Posts what a client does by way of `poster`. The arguments of a PUBLISH get the octets beside them that they are in an EVENT in JSON
/// ([`session::Args::with_json`]), where two live sessions or more that subscribed use JSON beside the publisher's; so the writers of its receivers
/// copy octets, and the work is done by the publisher's reader, beside the realm's actor. The client is counted itself once it subscribes.
///
/// What is posted is the same to every contract. Where memory is refused for the octets, the arguments are posted without them. The
/// realm keeps none of them with a publication that it retains.
#[derive(Drop)]
pub struct EncodingPoster<'a, P> {
    /// Where the octets are kept.
    pub alloc: Global,
    /// What the live sessions of the realm use that subscribed.
    pub in_use: &'a InUse,
    /// What the client itself uses.
    pub own: Serializer,
    /// That it is counted, once it has subscribed.
    pub using: Option<Using>,
    /// Posts it.
    pub poster: P,
}

impl<S: Shut, P: Posting<S>> Posting<S> for EncodingPoster<'_, P> {
    ghost posted = { λ e. P.posted e.poster };

    ghost weights = { λ e. P.weights e.poster };

    ghost returned = { λ e. P.returned e.poster };

    fn post<R: Wait>(&mut self, rt: &R, act: Act<S>, octets: usize) -> Result<(), Act<S>>
        requires { is_join act ≡ false }
        ensures posted { MatchResult result (λ _.
            P.posted self.new.poster ≡ with_acts (P.posted self.old.poster) (act ∷ []))
            (λ back. (back ≡ act) × (P.posted self.new.poster ≡ P.posted self.old.poster)) }
        ensures weighed { MatchResult result
            (λ _. P.weights self.new.poster ≡ P.weights self.old.poster ++ octets ∷ [])
            (λ _. P.weights self.new.poster ≡ P.weights self.old.poster) }
        ensures returned { MatchResult result
            (λ _. P.returned self.new.poster ≡ P.returned self.old.poster)
            (λ _. P.returned self.new.poster ≡ P.returned self.old.poster + 1) }
    {
        let own = counted(&mut self.using, self.in_use, self.own, &act);
        let act = encoded(self.alloc, self.in_use, own, act);
        self.poster.post(rt, act, octets)
    }

    fn rouse(&self) {
        self.poster.rouse();
    }
}

// What the client uses, where it is counted: from its first SUBSCRIBE on.
fn counted<S: Shut>(
    using: &mut Option<Using>,
    in_use: &InUse,
    own: Serializer,
    act: &Act<S>,
) -> Option<Serializer> {
    if using.is_none() && subscribes(act) {
        *using = in_use.enter(own).ok();
    }
    if using.is_some() { Some(own) } else { None }
}

// Whether it is a SUBSCRIBE.
fn subscribes<S: Shut>(act: &Act<S>) -> bool {
    match act {
        Act::Said(Said::Subscribe { .. }) => true,
        _ => false,
    }
}

// The same act. MessagePack's octets are what arguments are held as, so only JSON's are made.
fn encoded<S: Shut>(alloc: Global, in_use: &InUse, own: Option<Serializer>, act: Act<S>) -> Act<S>
    ensures { result ≡ act }
{
    if !in_use.is_shared(Serializer::Json, own) {
        return act;
    }
    match act {
        Act::Said(said) => Act::Said(encoded_said(alloc, said)),
        other => other,
    }
}

// What was said, the same.
fn encoded_said(alloc: Global, said: Said) -> Said
    ensures { result ≡ said }
{
    match said {
        Said::Publish(publish) => Said::Publish(encoded_publish(alloc, publish)),
        other => other,
    }
}

// The same PUBLISH.
fn encoded_publish(alloc: Global, publish: Publish) -> Publish
    ensures { result ≡ publish }
{
    Publish {
        args: publish.args.with_json(alloc),
        ..publish
    }
}
