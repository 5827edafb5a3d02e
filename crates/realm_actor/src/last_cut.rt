//! Which connections the handling of a post found full, or cut.
ghost use Rattle.std.specs.Prelude.{◌≡◌, ◌≤◌, ◌<◌, [], ◌∷◌, ◌++◌, cond, length, vec_capacity};
ghost use Rattle.realm_actor.specs.Handle.{EachUnmarked, Unmarked};
ghost use Rattle.realm_actor.specs.LastCut.{is_named, named_conns};
ghost use Rattle.realm_actor.specs.Invariant.{KeepsTable, Knows};

use crate::row::Row;
use crate::table::Table;
use realm_inbox::Shut;
use wamp_ids::Conn;

impl<S: Shut> Row<S> {
    // Takes the marks away, and answers whether there was one.
    fn unmark(&mut self) -> bool
        ensures was { result ≡ is_named self.old }
        ensures now { Unmarked self.old self.new }
    {
        let was = self.is_cut || self.is_lost;
        self.is_cut = false;
        self.is_lost = false;
        was
    }
}

// Names the row's connection, where it is marked, and takes the marks away.
fn name_one<S: Shut>(row: &mut Row<S>, last_cut: &mut Vec<Conn>)
    requires { length last_cut.old.items < vec_capacity last_cut.old }
    ensures named { last_cut.new.items ≡ last_cut.old.items
        ++ cond (is_named row.old) (row.old.conn ∷ []) [] }
    ensures row { Unmarked row.old row.new }
    ensures capacity { vec_capacity last_cut.new ≡ vec_capacity last_cut.old }
{
    let conn = row.conn;
    if row.unmark() {
        last_cut.push_reserved(conn);
    }
}

/// Names the connections of the rows that are marked, in their order, and takes the marks away.
pub fn name_cut<S: Shut>(rows: &mut [Row<S>], last_cut: &mut Vec<Conn>)
    requires room { length rows.old ≤ vec_capacity last_cut.old }
    requires empty { last_cut.old.items ≡ [] }
    ensures named { last_cut.new.items ≡ named_conns rows.old }
    ensures rows { EachUnmarked rows.old rows.new }
    ensures capacity { vec_capacity last_cut.new ≡ vec_capacity last_cut.old }
{
    for row in rows.iter_mut() {
        name_one(row, last_cut);
    }
}

/// The same of a Vec.
pub fn name_all<S: Shut>(rows: &mut Vec<Row<S>>, last_cut: &mut Vec<Conn>)
    requires room { length rows.old.items ≤ vec_capacity last_cut.old }
    requires empty { last_cut.old.items ≡ [] }
    ensures named { last_cut.new.items ≡ named_conns rows.old.items }
    ensures rows { EachUnmarked rows.old.items rows.new.items }
    ensures capacity { vec_capacity last_cut.new ≡ vec_capacity last_cut.old }
{
    let rows = rows.as_mut_slice();
    name_cut(rows, last_cut);
}

impl<S: Shut> Table<S> {
    /// Names the connections of the rows that are marked, in their order, and takes the marks away.
    pub fn name(&mut self, last_cut: &mut Vec<Conn>)
        requires knows { Knows self.old }
        requires room { length self.old.rows.items ≤ vec_capacity last_cut.old }
        requires empty { last_cut.old.items ≡ [] }
        ensures named { last_cut.new.items ≡ named_conns self.old.rows.items }
        ensures realm { self.new.realm ≡ self.old.realm }
        ensures rows { EachUnmarked self.old.rows.items self.new.rows.items }
        ensures keeps { KeepsTable self.old self.new }
        ensures capacity { vec_capacity last_cut.new ≡ vec_capacity last_cut.old }
    {
        if !self.has_marks {
            return;
        }
        self.has_marks = false;
        name_all(&mut self.rows, last_cut);
    }
}
