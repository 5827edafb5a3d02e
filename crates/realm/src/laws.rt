//! What holds of every history, by the definitions alone. These functions do nothing: each is there
//! for its contract.
ghost use Rattle.realm.specs.DueEvents.{DueEventsAreGiven, EventsAreDue};
ghost use Rattle.realm.specs.Laws.{AnnouncementsAreTrue, ArrivalsAreTold, DeparturesAreTold, EachSubscriptionOnce, EmptyEligibleReachesNobody, EventsAreAdmitted, EventsFollowSubscribed, EventsWhileSubscribed, ExcludedIsNotReached, GivenOnce, LastIsRetained, LeaverIsNotTold, NothingAfterAnEnding, NumbersNameOnePattern, OwedOnlyGrows, PublishedUnderItsWord, RetainedWasSent};
ghost use Rattle.realm.specs.PublisherOrder.{PublishersAreOwn, PublishersKeepOrder};

/// A history that begins another owes each connection a list that begins what the other owes it.
pub fn owed_only_grows()
    ensures { OwedOnlyGrows }
{}

/// After an ending of a session nothing is given to its connection any more.
pub fn nothing_after_an_ending()
    ensures { NothingAfterAnEnding }
{}

/// Each EVENT of a subscription that a session is owed stands after the SUBSCRIBED of that
/// subscription that it is owed.
pub fn events_follow_subscribed()
    ensures { EventsFollowSubscribed }
{}

/// While an EVENT of a subscription comes the session is subscribed: it was given the SUBSCRIBED of that
/// subscription, and has neither unsubscribed since nor ended.
pub fn events_while_subscribed()
    ensures { EventsWhileSubscribed }
{}

/// Of what is published by one entry each subscription of a session gets one EVENT at most, by
/// ascending number.
pub fn each_subscription_once()
    ensures { EachSubscriptionOnce }
{}

/// Each session that comes is announced to each other that holds a matching pattern, and so is each
/// that goes, but for one that a Cut without a word ends: under the word that the entry brings.
pub fn sessions_are_announced()
    ensures come { ArrivalsAreTold }
    ensures gone { DeparturesAreTold }
{}

/// At a reserved topic nothing is published but that a session has come, or has gone, with the entry
/// that publishes it.
pub fn announcements_are_true()
    ensures { AnnouncementsAreTrue }
{}

/// What an entry gives is one list: `GivesExactly` leaves no choice.
pub fn given_once()
    ensures { GivenOnce }
{}

/// What an entry publishes has the id of the word that it draws.
pub fn published_under_its_word()
    ensures { PublishedUnderItsWord }
{}

/// An ending gives its own session no EVENT.
pub fn leaver_is_not_told()
    ensures { LeaverIsNotTold }
{}

/// A subscription number names one pattern for good.
pub fn numbers_name_one_pattern()
    ensures { NumbersNameOnePattern }
{}

/// A session gets EVENTs of publications that admit it alone, retained ones included: one that names
/// it in `exclude` never reaches it, and one with an empty `eligible` reaches nobody.
pub fn events_are_admitted()
    ensures admitted { EventsAreAdmitted }
    ensures excluded { ExcludedIsNotReached }
    ensures empty { EmptyEligibleReachesNobody }
{}

/// Of each topic at most one publication is retained, the last of those that were to be; and it was
/// sent, when it was published, to each session that held a matching pattern and was admitted.
pub fn last_is_retained()
    ensures last { LastIsRetained }
    ensures sent { RetainedWasSent }
{}

/// Each EVENT that an entry gives a session is of what that entry publishes, or of what is retained
/// where it is a SUBSCRIBE that asks for it; the session holds a matching pattern by the EVENT's
/// number, and is admitted.
pub fn events_are_due()
    ensures { EventsAreDue }
{}

/// Of what an entry publishes a session gets the EVENT of each matching pattern that it holds, once,
/// if it is admitted; and so of what is retained, where it asks for that.
pub fn due_events_are_given()
    ensures { DueEventsAreGiven }
{}

/// What a session publishes, and that it has come or gone, reaches each other session in the order
/// in which it was published, over all topics.
pub fn publishers_keep_order()
    ensures own { PublishersAreOwn }
    ensures order { PublishersKeepOrder }
{}
