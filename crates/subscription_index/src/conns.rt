//! Connections, ascending.
ghost use Rattle.std.specs.Prelude.{◌≡◌, ◌==◌, ◌&&◌, ◌||◌, ℕ, [], ◌∷◌, not, true, OnOk, OnErr, IfOk, MatchResult};
ghost use Rattle.subscription_index.specs.body.Found.{has};
ghost use Rattle.subscription_index.specs.body.Conns.{AreAscending, BelongsAt};

use std::alloc::{AllocError, Global};
use std::marker::Model;
use wamp_ids::Conn;

/// Connections, ascending, each once. Contracts see a list of them.
#[derive(Drop)]
pub(crate) struct Conns {
    list: Vec<Conn>,
}

impl Model for Conns {
    ghost use Rattle.std.specs.Prelude.{ℕ, List};
    ghost use Rattle.subscription_index.specs.body.Conns.{AreAscending};

    ghost Value = { List ℕ };

    ghost view = { λ conns. conns.list.items };

    ghost invariant = { λ conns. AreAscending conns.list.items };
}

impl Conns {
    /// One connection.
    pub(crate) fn of(alloc: Global, conn: Conn) -> Result<Conns, AllocError>
        ensures { IfOk result (λ conns. conns ≡ conn ∷ []) }
    {
        let mut list = Vec::new(alloc);
        list.push(conn)?;
        Ok(Conns { list })
    }

    /// All of them.
    pub(crate) fn as_slice(&self) -> &[Conn]
        ensures all { result.now ≡ self.now }
        ensures ascending { AreAscending self.now }
    {
        &self.list
    }

    /// Puts the connection in its place, where it isn't there already.
    pub(crate) fn insert(&mut self, conn: Conn) -> Result<(), AllocError>
        ensures ok { OnOk result ((c : ℕ) → has self.new c ≡ conn == c || has self.old c) }
        ensures err { OnErr result (self.new ≡ self.old) }
    {
        match place_of(&self.list, conn) {
            Ok(_) => Ok(()),
            Err(place) => Ok(self.list.insert(place, conn)?),
        }
    }

    /// Takes the connection out.
    pub(crate) fn remove(&mut self, conn: Conn)
        ensures { (c : ℕ) → has self.new c ≡ not (conn == c) && has self.old c }
    {
        self.list.retain(|other| *other != conn);
    }
}

/// Where the connection stands, or the place that it would have.
fn place_of(list: &[Conn], conn: Conn) -> Result<usize, usize>
    requires { AreAscending list.now }
    ensures { MatchResult result (λ i. has list.now conn ≡ true) (λ i. BelongsAt list.now i conn) }
{
    list.binary_search(&conn)
}
