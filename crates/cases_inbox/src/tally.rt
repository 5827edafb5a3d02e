//! What was received of two connections.
use crate::wire::Wire;
use realm_inbox::{Act, Post};
use std::alloc::Global;
use std::io;
use wamp_ids::Conn;

/// How many PINGs of a connection came, and whether each was numbered by how many came before.
#[derive(Clone, Copy, Drop)]
pub struct Tally {
    conn: Conn,
    count: u64,
    are_in_order: bool,
}

impl Tally {
    pub fn new(conn: Conn) -> Tally {
        Tally {
            conn,
            count: 0,
            are_in_order: true,
        }
    }

    /// Counts the PING, if it is of this connection. False where it isn't.
    fn sees(&mut self, conn: Conn, payload: &[u8]) -> bool {
        if conn != self.conn {
            return false;
        }
        self.are_in_order = self.are_in_order && payload == self.count.to_be_bytes().as_slice();
        self.count = self.count.wrapping_add(1);
        true
    }

    /// What came, as a line.
    pub fn told(&self, alloc: Global) -> io::Result<String> {
        let conn = self.conn.value();
        let count = self.count;
        let are_in_order = self.are_in_order;
        Ok(format!(in alloc; "{conn}: {count} received, each the next: {are_in_order}\n")?)
    }
}

/// What was received of two connections, and how many other posts came.
#[derive(Drop)]
pub struct Received {
    pub first: Tally,
    pub second: Tally,
    pub others: u64,
}

impl Received {
    pub fn sees(&mut self, post: &Post<Wire>) {
        let is_counted = match post {
            Post::Stop(_) => false,
            Post::Act(letter) => match letter.act() {
                Act::Ping(octets) => {
                    let payload = octets.as_slice();
                    self.first.sees(letter.conn(), payload)
                        || self.second.sees(letter.conn(), payload)
                }
                _ => false,
            },
        };
        if !is_counted {
            self.others = self.others.wrapping_add(1);
        }
    }
    /// What came, as three lines.
    pub fn told(&self, alloc: Global) -> io::Result<String> {
        let mut told = self.first.told(alloc)?;
        told.push_str(self.second.told(alloc)?.as_str())?;
        let others = self.others;
        write!(told, "others: {others}, and then none\n")?;
        Ok(told)
    }

    /// What came of both, as a line.
    pub fn told_as_one(&self, alloc: Global) -> io::Result<String> {
        let count = self.first.count.wrapping_add(self.second.count);
        let are_in_order = self.first.are_in_order && self.second.are_in_order;
        Ok(format!(in alloc;
            "{count} received, each the next: {are_in_order}; both threads ended\n"
        )?)
    }
}
