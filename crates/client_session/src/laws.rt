//! What follows from the definitions of hearing alone. These functions do nothing: each is there for its
//! contract.
ghost use Rattle.std.specs.Prelude.{List, Ok, [], ◌∷◌, ◌++◌};
ghost use Rattle.rawsocket.specs.Frames.{Reads};
ghost use Rattle.client_messages.specs.declared.heard.Heard.{Heard as Hearing};
ghost use Rattle.client_session.specs.Hearing.{client_takes, Ear, HearsNext, Terms};
ghost use Rattle.client_session.specs.Laws.{HearsAll};

/// Where nothing is heard yet, nothing is done.
pub fn hearings_begin()
    ensures { (t : Terms) (before : Ear) → Reads client_takes before.held [] before.held
        → HearsAll t before before [] }
{}

/// Calls of [`crate::Link::hear`] one after another hear what the messages say of all octets that
/// were read since the first, in their order, and answer the PINGs before the last.
pub fn hearings_join()
    ensures { (t : Terms) (a b c : Ear) (heards : List Hearing) (heard : Hearing)
        → HearsAll t a b heards → HearsNext t b c (Ok heard)
        → HearsAll t a c (heards ++ heard ∷ []) }
{}
