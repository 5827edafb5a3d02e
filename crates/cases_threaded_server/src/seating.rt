//! The seats of connections, apart from serving.
use case_text::number_of;
use std::alloc::Global;
use std::io;
use threaded_server::Seats;
use wamp_ids::Conn;

/// The word that asks for a seat, or for all.
pub fn seat(alloc: Global, seats: &mut Seats, word: &str) -> io::Result<String> {
    match word {
        "fill" => fill(alloc, seats),
        _ => take(alloc, seats),
    }
}

/// Gives the seat of a connection back.
pub fn give_back(seats: &mut Seats, text: &str) {
    if let Some(conn) = Conn::new(number_of(text)) {
        seats.give_back(conn);
    }
}

// Takes a seat, and gives its number.
fn take(alloc: Global, seats: &mut Seats) -> io::Result<String> {
    match seats.take() {
        Ok(conn) => {
            let number = conn.value();
            Ok(format!(in alloc; "{number}\n")?)
        }
        Err(fault) => Ok(format!(in alloc; "{fault}\n")?),
    }
}

// Takes all seats that are free, and gives their count and the last number.
fn fill(alloc: Global, seats: &mut Seats) -> io::Result<String> {
    let mut count: u64 = 0;
    let mut last: u64 = 0;
    for _ in 0..1000 {
        let Ok(conn) = seats.take() else {
            break;
        };
        count = count.wrapping_add(1);
        last = conn.value();
    }
    Ok(format!(in alloc; "{count} taken, the last {last}\n")?)
}
