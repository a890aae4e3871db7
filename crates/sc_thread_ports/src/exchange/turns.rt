//! The calls of a port, each of which is done at one turn.
ghost use Rattle.std.specs.Prelude.{◌≡◌, ◌<◌, ◌≤◌, ◌+◌, ◌^◌, ◌++◌, ◌∷◌, [], true, false, length, map, IfOk, IfErr, OnOk, OnErr, IsOk, MatchBool, is_some, Some, None, IsSome};
ghost use Rattle.sc_thread_ports.specs.turn.Seats.{known, OfOneStart};
ghost use Rattle.sc_thread_ports.specs.turn.Turn.{with_turn, with_row};
ghost use Rattle.sc_actor.specs.Counted.{row_bytes, journal_bytes};
ghost use Rattle.sc_thread_ledger.specs.PostErrors.{IsCause};
ghost use Rattle.sc_thread_ledger.specs.Pending.{kth_pending};
ghost use Rattle.sc_thread_ports.specs.declared.exchange.shared.BareRow.{BareRow};
ghost use Rattle.sc_thread_ports.specs.exchange.BareRows.{bare_rows, rows_from};
ghost use Rattle.sc_thread_ports.specs.exchange.Answers.{IsFetch, IsFirstTo, IsGlance, IsLook};
ghost use Rattle.std.specs.Option.{option_map};
ghost use Rattle.sc_actor.specs.Mail.{mails, numbered};
ghost use Rattle.sc_thread_ports.specs.exchange.Addressed.{is_addressed};
ghost use Rattle.sc_thread_ports.specs.exchange.Turns.{Turned, RowTurned, Changed, may_change, change, SeatLooked, SeatTurned, rows_in};

use crate::exchange::answers::Fetched;
use crate::exchange::fates::Fate;
use crate::exchange::shared::Exchange;
use crate::turn::TurnSeat;
use sc_actor::{Event, Parcel, Row};
use sc_base::{OutOfMemory, Sequence};
use sc_thread_ledger::{Glance, Ledger, Look, Unkept};
use std::alloc::Global;
use std::sync::Wait;

// Gives the turn back with the rows that were found.
fn keep_same<M: Parcel + Drop, O: Drop>(
    seat: &mut TurnSeat<Exchange<M, O>>,
    exchange: Exchange<M, O>,
)
    requires turn { (known seat.old).turn ≡ true }
    requires list { bare_rows (rows_in exchange) ≡ (known seat.old).seen }
    ensures start { OfOneStart seat.old seat.new }
    ensures view { known seat.new ≡ with_turn (known seat.old) false }
{
    seat.leave(exchange);
}

// Gives the turn back with one more row, of the seat's number.
fn keep_row<M: Parcel + Drop, O: Drop>(
    seat: &mut TurnSeat<Exchange<M, O>>,
    exchange: Exchange<M, O>,
)
    requires turn { (known seat.old).turn ≡ true }
    requires list { (bare : BareRow M O)
        × (bare_rows (rows_in exchange)
        ≡ (known seat.old).seen ++ (bare, (known seat.old).who) ∷ []) }
    ensures start { OfOneStart seat.old seat.new }
    ensures view { (bare : BareRow M O) →
        bare_rows (rows_in exchange)
        ≡ (known seat.old).seen ++ (bare, (known seat.old).who) ∷ [] →
        known seat.new ≡ with_turn (with_row (known seat.old) bare) false }
{
    seat.leave(exchange);
}

/// Returns the number of the k-th pending mail at this turn, of actor `who`, or of all where `who`
/// is 0.
pub(crate) fn kth_at<M: Parcel + Drop, O: Drop, R: Wait>(
    rt: &R,
    seat: &mut TurnSeat<Exchange<M, O>>,
    actors: u32,
    who: u32,
    k: u32,
) -> Option<u32>
    requires turn { (known seat.old).turn ≡ false }
    requires first { 0 < k }
    ensures looked { SeatLooked seat.old seat.new }
    ensures kth { result ≡ kth_pending M.receiver actors (rows_from (known seat.new).seen) who k }
{
    let exchange = seat.enter(rt);
    let found = exchange.ledger.kth(actors, who, k);
    keep_same(seat, exchange);
    found
}

/// Returns the receiver of a mail, if at this turn it was sent.
pub(crate) fn receiver_at<M: Parcel + Drop, O: Drop, R: Wait>(
    rt: &R,
    seat: &mut TurnSeat<Exchange<M, O>>,
    number: u32,
) -> Option<u32>
    requires turn { (known seat.old).turn ≡ false }
    ensures looked { SeatLooked seat.old seat.new }
    ensures receiver { result
        ≡ option_map M.receiver (numbered (mails (rows_from (known seat.new).seen)) number) }
{
    let exchange = seat.enter(rt);
    let found = exchange.ledger.receiver(number);
    keep_same(seat, exchange);
    found
}

// Returns the receiver of the first pending mail of actor `who`, or of all where `who` is 0,
// without a copy of the mail.
fn first_in<M: Parcel + Drop, O: Drop>(ledger: &Ledger<M, O>, actors: u32, who: u32) -> Option<u32>
    ensures { IsFirstTo M.receiver actors ledger.now.rows.items who result }
{
    match ledger.kth(actors, who, 1) {
        Some(number) => ledger.receiver(number),
        None => None,
    }
}

/// Returns the receiver of the first mail that is pending at this turn for actor `who`, or for any
/// where `who` is 0.
pub(crate) fn first_at<M: Parcel + Drop, O: Drop, R: Wait>(
    rt: &R,
    seat: &mut TurnSeat<Exchange<M, O>>,
    actors: u32,
    who: u32,
) -> Option<u32>
    requires turn { (known seat.old).turn ≡ false }
    ensures looked { SeatLooked seat.old seat.new }
    ensures first { IsFirstTo M.receiver actors (rows_from (known seat.new).seen) who result }
{
    let exchange = seat.enter(rt);
    let found = first_in(&exchange.ledger, actors, who);
    keep_same(seat, exchange);
    found
}

/// Returns for each of these actors whether mail is pending for it at this turn.
pub(crate) fn waiting_at<M: Parcel + Drop, O: Drop, R: Wait>(
    rt: &R,
    alloc: Global,
    seat: &mut TurnSeat<Exchange<M, O>>,
    actors: u32,
    whos: &[u32],
) -> Result<Vec<bool>, OutOfMemory>
    requires turn { (known seat.old).turn ≡ false }
    ensures looked { SeatLooked seat.old seat.new }
    ensures waiting { IfOk result
        (λ waits.
        waits.items
        ≡ map
        (λ who. is_some (kth_pending M.receiver actors (rows_from (known seat.new).seen) who 1))
        whos.now) }
    ensures none { whos.now ≡ [] → IsOk result }
{
    let exchange = seat.enter(rt);
    let waits = waiting_in(&exchange.ledger, alloc, actors, whos);
    keep_same(seat, exchange);
    waits
}

fn waiting_in<M: Parcel + Drop, O: Drop>(
    ledger: &Ledger<M, O>,
    alloc: Global,
    actors: u32,
    whos: &[u32],
) -> Result<Vec<bool>, OutOfMemory>
    ensures waiting { IfOk result
        (λ waits.
        waits.items
        ≡ map (λ who. is_some (kth_pending M.receiver actors ledger.now.rows.items who 1))
        whos.now) }
    ensures none { whos.now ≡ [] → IsOk result }
{
    let mut waits = Vec::new(alloc);
    for who in whos {
        waits.push(ledger.kth(actors, *who, 1).is_some())?;
    }
    Ok(waits)
}

// Returns a copy of the k-th pending mail. Most fetches find none; this is a function apart so that
// they do not pay for its stack frame.
#[inline(never)]
fn found_in<M: Parcel + Drop, O: Drop>(
    ledger: &Ledger<M, O>,
    alloc: Global,
    actors: u32,
    who: u32,
    k: u32,
    number: u32,
) -> Result<Fetched<M>, OutOfMemory>
    requires kth { kth_pending M.receiver actors ledger.now.rows.items who k ≡ Some number }
    requires sent { IsSome (numbered (mails ledger.now.rows.items) number) }
    ensures { IfOk result (λ found. IsFetch M.receiver actors ledger.now.rows.items who k found) }
{
    match ledger.mail(alloc, number)? {
        Some(mail) => Ok(Fetched::Mail { number, mail }),
        None => unreachable!(),
    }
}

/// Returns the k-th pending mail at this turn, with its number, or how many rows there are where
/// fewer mails are pending, which takes no memory.
pub(crate) fn fetch_at<M: Parcel + Drop, O: Drop, R: Wait>(
    rt: &R,
    alloc: Global,
    seat: &mut TurnSeat<Exchange<M, O>>,
    actors: u32,
    who: u32,
    k: u32,
) -> Result<Fetched<M>, OutOfMemory>
    requires turn { (known seat.old).turn ≡ false }
    requires first { 0 < k }
    ensures looked { SeatLooked seat.old seat.new }
    ensures found { IfOk result
        (λ found. IsFetch M.receiver actors (rows_from (known seat.new).seen) who k found) }
    ensures none { kth_pending M.receiver actors (rows_from (known seat.new).seen) who k ≡ None →
        IsOk result }
{
    let exchange = seat.enter(rt);
    let Some(number) = exchange.ledger.kth(actors, who, k) else {
        let seen = exchange.ledger.len() as u32;
        keep_same(seat, exchange);
        return Ok(Fetched::Empty { seen });
    };
    let found = found_in(&exchange.ledger, alloc, actors, who, k, number);
    keep_same(seat, exchange);
    found
}

/// Returns all that is pending at this turn.
pub(crate) fn look_at<M: Parcel + Drop, O: Drop, R: Wait>(
    rt: &R,
    alloc: Global,
    seat: &mut TurnSeat<Exchange<M, O>>,
    actors: u32,
) -> Result<Look, OutOfMemory>
    requires turn { (known seat.old).turn ≡ false }
    ensures looked { SeatLooked seat.old seat.new }
    ensures look { IfOk result
        (λ look. IsLook M.receiver actors (rows_from (known seat.new).seen) look) }
{
    let exchange = seat.enter(rt);
    let look = look_in(&exchange.ledger, alloc, actors);
    keep_same(seat, exchange);
    look
}

fn look_in<M: Parcel + Drop, O: Drop>(
    ledger: &Ledger<M, O>,
    alloc: Global,
    actors: u32,
) -> Result<Look, OutOfMemory>
    ensures { IfOk result (λ look. IsLook M.receiver actors ledger.now.rows.items look) }
{
    ledger.look(alloc, actors)
}

/// Returns the number of mails that were sent, and the pending copy that `word` picks, at this
/// turn.
pub(crate) fn glance_at<M: Parcel + Drop, O: Drop, R: Wait>(
    rt: &R,
    alloc: Global,
    seat: &mut TurnSeat<Exchange<M, O>>,
    actors: u32,
    whos: &[u32],
    word: u32,
) -> Result<Glance, OutOfMemory>
    requires turn { (known seat.old).turn ≡ false }
    ensures looked { SeatLooked seat.old seat.new }
    ensures glance { IfOk result
        (λ glance.
        IsGlance M.receiver actors (rows_from (known seat.new).seen) whos.now word glance) }
{
    let exchange = seat.enter(rt);
    let glance = glance_in(&exchange.ledger, alloc, actors, whos, word);
    keep_same(seat, exchange);
    glance
}

fn glance_in<M: Parcel + Drop, O: Drop>(
    ledger: &Ledger<M, O>,
    alloc: Global,
    actors: u32,
    whos: &[u32],
    word: u32,
) -> Result<Glance, OutOfMemory>
    ensures { IfOk result
        (λ glance. IsGlance M.receiver actors ledger.now.rows.items whos.now word glance) }
{
    ledger.glance(alloc, actors, whos, word)
}

// Appends a row to the journal that was found, and gives the turn back.
fn append_row<M: Parcel + Drop, O: Drop>(
    seat: &mut TurnSeat<Exchange<M, O>>,
    found: Exchange<M, O>,
    row: Row<M, O>,
    limit: u64,
) -> Result<u32, Unkept<M, O>>
    requires turn { (known seat.old).turn ≡ true }
    requires list { bare_rows (rows_in found) ≡ (known seat.old).seen }
    requires maker { row.who ≡ (known seat.old).who }
    requires addressed { is_addressed M.receiver (mails (rows_in found)) row.who row.event ≡ true }
    requires limit { limit ≤ 2 ^ 30 }
    ensures start { OfOneStart seat.old seat.new }
    ensures ok { IfOk result
        (λ place.
        (known seat.new
        ≡ with_turn (with_row (known seat.old) (record { event = row.event; sent = row.sent }))
        false)
        × (place ≡ length (rows_in found ++ row ∷ []))) }
    ensures fits { OnOk result
        (journal_bytes M.weighs (rows_in found) + row_bytes M.weighs row ≤ limit) }
    ensures refused { IfErr result
        (λ e.
        (known seat.new ≡ with_turn (known seat.old) false)
        × (e.row ≡ row)
        × IsCause e.why (journal_bytes M.weighs (rows_in found)) (row_bytes M.weighs row) limit) }
{
    let mut exchange = found;
    match exchange.ledger.append(row, limit) {
        Ok(()) => {
            let place = exchange.ledger.len() as u32;
            keep_row(seat, exchange);
            Ok(place)
        }
        Err(unkept) => {
            keep_same(seat, exchange);
            Err(unkept)
        }
    }
}

/// Appends a row of the seat's number at a turn, and returns its place in the journal, counted from
/// 1.
pub(crate) fn post_at<M: Parcel + Drop, O: Drop, R: Wait>(
    rt: &R,
    seat: &mut TurnSeat<Exchange<M, O>>,
    row: Row<M, O>,
    limit: u64,
) -> Result<u32, Unkept<M, O>>
    requires turn { (known seat.old).turn ≡ false }
    requires maker { row.who ≡ (known seat.old).who }
    requires addressed { is_addressed M.receiver (mails (rows_from (known seat.old).seen)) row.who
        row.event
        ≡ true }
    requires limit { limit ≤ 2 ^ 30 }
    ensures turned { SeatTurned seat.old seat.new }
    ensures ok { IfOk result
        (λ place.
        RowTurned (known seat.old) (known seat.new) row
        × (place ≡ length (rows_from (known seat.new).seen))
        × (journal_bytes M.weighs (rows_from (known seat.new).seen) ≤ limit)) }
    ensures refused { IfErr result
        (λ e.
        Turned (known seat.old) (known seat.new)
        × (e.row ≡ row)
        × IsCause e.why (journal_bytes M.weighs (rows_from (known seat.new).seen))
        (row_bytes M.weighs row) limit) }
{
    let exchange = seat.enter(rt);
    append_row(seat, exchange, row, limit)
}

fn may_change_at<M: Parcel + Drop, O: Drop>(
    ledger: &Ledger<M, O>,
    actors: u32,
    number: u32,
    fate: Fate,
) -> bool
    ensures { result ≡ may_change fate M.receiver actors ledger.now.rows.items number }
{
    match fate {
        Fate::Lost => ledger.is_pending(actors, number),
        Fate::Repeated => ledger.may_repeat(actors, number),
    }
}

// Returns the network's row that loses or repeats a mail.
fn change_of<M, O>(alloc: Global, number: u32, fate: Fate) -> Row<M, O>
    ensures { result ≡ change fate number }
{
    let event = match fate {
        Fate::Lost => Event::Drop(number),
        Fate::Repeated => Event::Again(number),
    };
    Row {
        who: 0,
        event,
        sent: Sequence::new(alloc),
    }
}

/// Loses a pending copy, or repeats a mail, where at this turn it may be done. Returns whether it
/// was.
pub(crate) fn change_at<M: Parcel + Drop, O: Drop, R: Wait>(
    rt: &R,
    alloc: Global,
    seat: &mut TurnSeat<Exchange<M, O>>,
    actors: u32,
    limit: u64,
    number: u32,
    fate: Fate,
) -> Result<bool, Unkept<M, O>>
    requires turn { (known seat.old).turn ≡ false }
    requires net { (known seat.old).who ≡ 0 }
    requires limit { limit ≤ 2 ^ 30 }
    ensures turned { SeatTurned seat.old seat.new }
    ensures ok { IfOk result
        (λ done.
        MatchBool done
        (Changed M.receiver actors fate number (known seat.old) (known seat.new)
        × (journal_bytes M.weighs (rows_from (known seat.new).seen) ≤ limit))
        (Turned (known seat.old) (known seat.new)
        × (may_change fate M.receiver actors (rows_from (known seat.new).seen) number ≡ false))) }
    ensures may { OnErr result
        (may_change fate M.receiver actors (rows_from (known seat.new).seen) number ≡ true) }
    ensures refused { IfErr result
        (λ e.
        Turned (known seat.old) (known seat.new)
        × (e.row ≡ change fate number)
        × IsCause e.why (journal_bytes M.weighs (rows_from (known seat.new).seen))
        (row_bytes M.weighs e.row) limit) }
{
    let exchange = seat.enter(rt);
    if !may_change_at(&exchange.ledger, actors, number, fate) {
        keep_same(seat, exchange);
        return Ok(false);
    }
    match append_row(seat, exchange, change_of(alloc, number, fate), limit) {
        Ok(_) => Ok(true),
        Err(unkept) => Err(unkept),
    }
}
