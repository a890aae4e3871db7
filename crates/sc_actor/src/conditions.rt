//! Tests of the conditions that the actors and the rows of a run meet.
ghost use Rattle.std.specs.Prelude.{◌≡◌, ◌↔◌, ◌==◌, ◌<◌, ◌^◌, IsTrue, true, length};
ghost use Rattle.sc_actor.specs.Mail.{mails};
ghost use Rattle.std.specs.List.{list_any};
ghost use Rattle.sc_actor.specs.System.{are_apart};

use crate::actors::Seat;
use crate::rows::Row;

fn has_number<A>(seats: &[Seat<A>], who: u32) -> bool
    ensures { result ≡ list_any (λ seat. seat.who == who) seats.now }
{
    seats.iter().any(|seat| seat.who == who)
}

/// Returns whether no two actors have the same number.
pub fn are_apart<A>(seats: &[Seat<A>]) -> bool
    ensures { result ≡ are_apart seats.now }
{
    for i in 0..seats.len() {
        if has_number(&seats[i + 1..], seats[i].who) {
            return false;
        }
    }
    true
}

/// Returns whether there are fewer than 2^31 rows, and fewer than 2^31 mails sent in them.
pub fn are_few<M, O>(rows: &[Row<M, O>]) -> bool
    ensures { IsTrue result ↔ (length rows.now < 2 ^ 31) × (length (mails rows.now) < 2 ^ 31) }
{
    let mut sent = 0u64;
    for row in rows {
        sent = sent.saturating_add(row.sent.len() as u64);
    }
    rows.len() < 1 << 31 && sent < 1 << 31
}
