//! Where a connection's row stands.
ghost use Rattle.std.specs.Prelude.{◌≡◌, ◌≢◌, ◌<◌, IfSome, MatchOption, true, false, slice_get};
ghost use Rattle.realm_actor.specs.declared.row.Row.{Row as ARow};
ghost use Rattle.realm_actor.specs.Rows.{Ascending, PartsAt, StandsAt, Each};

use crate::row::Row;
use crate::seat_guesses::SeatGuesses;
use realm_inbox::Shut;
use wamp_ids::Conn;

/// The place of the first row whose connection isn't below this one.
pub fn place_in<S: Shut>(rows: &[Row<S>], conn: Conn) -> usize
    requires { Ascending rows.now }
    ensures { PartsAt rows.now conn result }
{
    place_by(rows, conn.value())
}

// The place of the first row whose connection's number isn't below this one.
fn place_by<S: Shut>(rows: &[Row<S>], number: u64) -> usize
    requires { Ascending rows.now }
    ensures { PartsAt rows.now number result }
{
    let mut from = 0;
    let mut end = rows.len();
    while from < end {
        let middle = from + (end - from) / 2;
        if rows[middle].conn.value() < number {
            from = middle + 1;
        } else {
            end = middle;
        }
    }
    from
}

// Whether the row at the place is that of the connection of this number.
fn is_at<S: Shut>(rows: &[Row<S>], place: usize, number: u64) -> bool
    ensures yes { result ≡ true → StandsAt rows.now number place }
    ensures no { result ≡ false → (r : ARow _) → slice_get rows.now place ≡ Some r
        → r.conn ≢ number }
{
    place < rows.len() && rows[place].conn.value() == number
}

// The place of the row of the connection of this number, where that is `near` or the next.
fn find_near<S: Shut>(rows: &[Row<S>], near: usize, number: u64) -> Option<usize>
    ensures { IfSome result (λ i. StandsAt rows.now number i) }
{
    if is_at(rows, near, number) {
        return Some(near);
    }
    if near < rows.len() && is_at(rows, near + 1, number) {
        return Some(near + 1);
    }
    None
}

/// The place of the connection's row. Where `near` is a row of it, or the row before it, nothing is searched.
pub fn find<S: Shut>(rows: &[Row<S>], near: usize, conn: Conn) -> Option<usize>
    requires { Ascending rows.now }
    ensures { MatchOption result (Each (λ r. r.conn ≢ conn) rows.now)
        (λ i. StandsAt rows.now conn i) }
{
    find_number(rows, near, conn.value())
}

/// The same by the connection's number.
pub fn find_number<S: Shut>(rows: &[Row<S>], near: usize, number: u64) -> Option<usize>
    requires { Ascending rows.now }
    ensures { MatchOption result (Each (λ r. r.conn ≢ number) rows.now)
        (λ i. StandsAt rows.now number i) }
{
    if let Some(place) = find_near(rows, near, number) {
        return Some(place);
    }
    let place = place_by(rows, number);
    if is_at(rows, place, number) {
        Some(place)
    } else {
        None
    }
}

/// The place of the connection's row, as [`find`]. Where it isn't near, it is looked for by its seat before it is searched, and where
/// it stands is noted.
pub fn find_by_seat<S: Shut>(
    rows: &[Row<S>],
    near: usize,
    guesses: &mut SeatGuesses,
    conn: Conn,
) -> Option<usize>
    requires { Ascending rows.now }
    ensures { MatchOption result (Each (λ r. r.conn ≢ conn) rows.now)
        (λ i. StandsAt rows.now conn i) }
{
    if let Some(place) = find_near(rows, near, conn.value()) {
        return Some(place);
    }
    let place = find(rows, guesses.of(conn), conn)?;
    guesses.note(conn, place);
    Some(place)
}
