//! Who holds which patterns, under which numbers.
ghost use Rattle.std.specs.Prelude.{◌≡◌, ◌≢◌, ◌↔◌, [], None, Some, Err, IfOk, IfSome, OnErr, IsOk, IsSome, true, false, cond, not, nat_lt, ◌+◌};
ghost use Rattle.std.specs.Option.{option_copied};
ghost use Rattle.subscription_index.specs.Index.{IsIndex, IsStrictlyAscending, number_held, holds_number, pattern_of, without, without_all, subscribed, matching};
ghost use Rattle.subscription_index.specs.Receiver.{receivers};
ghost use Rattle.subscription_index.specs.body.Receivers.{keys_of};

use crate::fault::Fault;
use crate::names::{self, Names};
use crate::receivers::Receivers;
use crate::rows::{self, Rows};
use crate::shares::{self, Counts, Holders};
use std::alloc::{AllocError, Global};
use std::collections::BTreeMap;
use std::marker::Model;
use wamp_ids::{Conn, Id, Pattern, Topic};

const MOST_OPENED: u64 = 9007199254740992;

/// Who holds which patterns, under which numbers (WAMP, "Subscribing and Unsubscribing"). Equal
/// patterns share one number as long as somebody holds it; each opening of a subscription takes the
/// next number, from 1, and no number comes again.
#[derive(Drop)]
pub struct Index {
    rows: Rows,
    opened: u64,
    names: Names,
    holders: Holders,
    counts: Counts,
}

impl Model for Index {
    ghost use Rattle.subscription_index.specs.Index.{Held, IsIndex};
    ghost use Rattle.subscription_index.specs.body.Holders.{IsShared, NamesAll};

    ghost Value = { Held };

    ghost view = { λ s. record { rows = s.rows.entries; opened = s.opened } };

    ghost invariant = { λ s. IsIndex (record { rows = s.rows.entries; opened = s.opened })
        × NamesAll s.rows.entries s.names × IsShared s.rows.entries s.holders s.counts };
}

impl Index {
    /// Nobody holds anything, and nothing was opened.
    pub fn new(alloc: Global) -> Index
        ensures { result ≡ record { rows = []; opened = 0 } }
    {
        Index {
            rows: BTreeMap::new(alloc),
            opened: 0,
            names: names::none(alloc),
            holders: BTreeMap::new(alloc),
            counts: BTreeMap::new(alloc),
        }
    }

    /// Subscribes the connection to the pattern, and gives the subscription's number: the one under
    /// which it holds the pattern already; else the one of the others that hold it; else the next.
    ///
    /// `TooManySubscriptions` exactly where the connection holds 256 others, or where nobody holds
    /// the pattern and 2^53 subscriptions were opened. After a refusal nothing is changed. What is
    /// held already is refused for neither reason, and takes no memory.
    pub fn hold(&mut self, alloc: Global, conn: Conn, pattern: Pattern) -> Result<Id, Fault>
        ensures ok { IfOk result (λ n. subscribed self.old conn pattern ≡ Some (n, self.new)) }
        ensures full { (result ≡ Err Fault.TooManySubscriptions)
            ↔ (subscribed self.old conn pattern ≡ None) }
        ensures again { IsSome (number_held self.old.rows conn pattern) → IsOk result }
        ensures unchanged { OnErr result (self.new ≡ self.old) }
        ensures index { IsIndex self.new }
    {
        let found = rows::number_of(&self.rows, &self.names, &pattern);
        if let Some(number) = rows::number_held(&self.rows, &found, conn, &pattern) {
            return Ok(number);
        }
        if rows::is_full(&self.rows, &self.holders, &self.counts, conn) {
            return Err(Fault::TooManySubscriptions);
        }
        match found {
            Some(number) => {
                rows::join(
                    &mut self.rows,
                    &mut self.holders,
                    &mut self.counts,
                    alloc,
                    conn,
                    number,
                    pattern,
                )?;
                Ok(number)
            }
            None => {
                let Some(number) = next_number(self.opened) else {
                    return Err(Fault::TooManySubscriptions);
                };
                rows::open(
                    &mut self.rows,
                    &mut self.names,
                    &mut self.holders,
                    &mut self.counts,
                    alloc,
                    conn,
                    number,
                    pattern,
                )?;
                self.opened += 1;
                Ok(number)
            }
        }
    }

    /// Ends the connection's subscription of this number; `false` where it has none, and then
    /// nothing is changed.
    pub fn release(&mut self, conn: Conn, number: Id) -> bool
        ensures held { result ≡ holds_number self.old.rows conn number }
        ensures released { result ≡ true → self.new ≡ record
            { rows = without self.old.rows conn number; opened = self.old.opened } }
        ensures unchanged { result ≡ false → self.new ≡ self.old }
        ensures index { IsIndex self.new }
    {
        rows::end(
            &mut self.rows,
            &mut self.names,
            &mut self.holders,
            &mut self.counts,
            conn,
            number,
        )
    }

    /// Ends all subscriptions of the connection.
    pub fn drop_all(&mut self, conn: Conn)
        ensures others { self.new ≡ record {
          rows = without_all self.old.rows conn;
          opened = self.old.opened;
        } }
        ensures index { IsIndex self.new }
    {
        while let Some(number) = self.first_of(conn) {
            self.release(conn, number);
        }
    }

    /// How many patterns are held: each as often as there are connections that hold it.
    pub fn len(&self) -> usize {
        self.rows.iter().len()
    }

    /// The least number of the connection.
    fn first_of(&self, conn: Conn) -> Option<Id>
        ensures none { result ≡ None → without_all self.now.rows conn ≡ self.now.rows }
        ensures some { IfSome result (λ n. holds_number self.now.rows conn n ≡ true) }
        ensures index { IsIndex self.now }
    {
        rows::first_of(&self.rows, conn, self.opened)
    }

    /// Who holds a pattern that matches the topic, and under which number: each pair once, ascending
    /// by connection and then by number.
    pub fn matching(&self, alloc: Global, topic: &Topic) -> Result<Vec<(Conn, Id)>, Fault>
        ensures found { IfOk result (λ found. found.items ≡ matching self.now.rows topic.now) }
        ensures ascending { IfOk result (λ found. IsStrictlyAscending found.items) }
        ensures other { result ≢ Err Fault.TooManySubscriptions }
        ensures index { IsIndex self.now }
    {
        let receivers = self.receivers(alloc, topic)?;
        Ok(pairs_of(alloc, &receivers)?)
    }

    /// The same pairs in the same order, and for each whether the subscription's events have to name
    /// the topic. It takes the time of a search for the patterns, and of a sort only where two of
    /// them match or more.
    ///
    /// # Errors
    /// `NoMemory` where a growth was refused.
    pub fn receivers(&self, alloc: Global, topic: &Topic) -> Result<Receivers<'_>, Fault>
        ensures found { IfOk result (λ found. found ≡ receivers self.now.rows topic.now) }
        ensures other { result ≢ Err Fault.TooManySubscriptions }
        ensures index { IsIndex self.now }
    {
        let topic = topic.text().as_bytes();
        let exact = names::exact(&self.names, topic);
        let others = names::others(&self.names, alloc, topic)?;
        Ok(shares::receivers_of(&self.holders, alloc, &exact, &others)?)
    }

    /// The pattern that the connection holds under this number; `None` where it holds none.
    pub fn pattern_of(&self, conn: Conn, number: Id) -> Option<&Pattern>
        ensures held { option_copied result ≡ pattern_of self.now.rows conn number }
        ensures index { IsIndex self.now }
    {
        rows::pattern_of(&self.rows, conn, number)
    }
}

/// The receivers as pairs of connection and number.
fn pairs_of(alloc: Global, receivers: &Receivers<'_>) -> Result<Vec<(Conn, Id)>, AllocError>
    ensures { IfOk result (λ pairs. pairs.items ≡ keys_of receivers.now) }
{
    let mut pairs = Vec::with_capacity(alloc, receivers.len())?;
    for place in 0..receivers.len() {
        let receiver = receivers.at(place);
        pairs.push_reserved((receiver.conn, receiver.number));
    }
    Ok(pairs)
}

/// The number of the next opening; `None` where all were given.
fn next_number(opened: u64) -> Option<Id>
    ensures { result ≡ cond (nat_lt opened 9007199254740992) (Some (opened + 1)) None }
{
    if opened < MOST_OPENED {
        Some(Id::of_word(opened))
    } else {
        None
    }
}
