//! What is counted for the summary of a journal.
ghost use Rattle.std.specs.Prelude.{◌≡◌, ◌<◌, ◌≤◌, ◌^◌, ◌++◌, map, length, count_by, IfOk, OnOk, slice_get};
ghost use Rattle.std.specs.List.{flat_map};
ghost use Rattle.sc_actor.specs.Mail.{is_delivery, mails};
ghost use Rattle.sc_base.specs.Limits.{most_requests};
ghost use Rattle.sc_meaning.specs.sound.Summary.{asked_by, asked_from, asked_after, got_of};

use crate::party::Party;
use sc_actor::{Event, Row, Seat};
use sc_base::{Dup, Op, OutOfMemory, Sequence};
use sc_client::ClientCore;
use sc_mail::Mail;
use sc_meaning::got_by;
use sc_scenario::{Asked, Progress};
use sc_words::OrderLine;
use std::alloc::Global;

fn got_at(alloc: Global, client: &ClientCore, i: usize, seq: u32) -> Result<Progress, OutOfMemory>
    ensures { IfOk result (λ got. got ≡ got_of (slice_get client.now.replies i) client.now seq) }
{
    let waits = client.waiting() == Some(seq);
    if i < client.replies().len() {
        let reply = client.replies().at(i).dup(alloc)?;
        return Ok(got_by(Some(reply), waits));
    }
    Ok(got_by(None, waits))
}

// Returns the request of a client after its first `i` requests, with how far it came.
fn asked_at(alloc: Global, client: &ClientCore, i: usize, op: &Op) -> Result<Asked, OutOfMemory>
    requires { i < most_requests }
    ensures { IfOk result (λ asked. asked ≡ asked_after client.now i op.now) }
{
    let seq = i as u32 + 1;
    let got = got_at(alloc, client, i, seq)?;
    Ok(Asked {
        client: client.me(),
        seq,
        op: op.dup(alloc)?,
        got,
    })
}

fn add_client(
    alloc: Global,
    asked: &mut Sequence<Asked>,
    client: &ClientCore,
    ops: &[Op],
) -> Result<(), OutOfMemory>
    requires { length ops.now ≤ most_requests }
    ensures { OnOk result (asked.new ≡ asked.old ++ asked_from client.now 0 ops.now) }
{
    for i in 0..ops.len() {
        asked.push(asked_at(alloc, client, i, &ops[i])?)?;
    }
    Ok(())
}

fn add_party(alloc: Global, asked: &mut Sequence<Asked>, party: &Party) -> Result<(), OutOfMemory>
    ensures { OnOk result (asked.new ≡ asked.old ++ asked_by party.now) }
{
    match party {
        Party::Node(_) => Ok(()),
        Party::Client(client) => add_client(alloc, asked, client, client.requests().as_slice()),
    }
}

/// Returns the requests of all clients, each with how far it came. The only error is out of memory.
pub(crate) fn all_asked(alloc: Global, parties: &[Party]) -> Result<Sequence<Asked>, OutOfMemory>
    ensures { IfOk result (λ asked. asked ≡ flat_map asked_by parties.now) }
{
    let mut asked = Sequence::new(alloc);
    for party in parties {
        add_party(alloc, &mut asked, party)?;
    }
    Ok(asked)
}

fn is_delivery(event: &Event<OrderLine>) -> bool
    ensures { result ≡ is_delivery event.now }
{
    match event {
        Event::Deliver(_) => true,
        _ => false,
    }
}

/// Returns the number of rows that deliver a mail.
pub(crate) fn deliveries(rows: &[Row<Mail, OrderLine>]) -> u32
    requires { length rows.now < 2 ^ 31 }
    ensures { result ≡ count_by (λ row. is_delivery row.event) rows.now }
{
    let mut total = 0u32;
    for row in rows {
        if is_delivery(&row.event) {
            total += 1;
        }
    }
    total
}

/// Returns the number of mails that the rows send.
pub(crate) fn mail_count(rows: &[Row<Mail, OrderLine>]) -> u32
    requires { length (mails rows.now) < 2 ^ 31 }
    ensures { result ≡ length (mails rows.now) }
{
    let mut total = 0u32;
    for row in rows {
        total += row.sent.len() as u32;
    }
    total
}

/// Returns the actors without their numbers. The only error is out of memory.
pub(crate) fn parties_of(
    alloc: Global,
    seats: Vec<Seat<Party>>,
) -> Result<Sequence<Party>, OutOfMemory>
    ensures { IfOk result (λ parties. parties ≡ map (λ seat. seat.actor) seats.items) }
{
    let mut parties = Sequence::new(alloc);
    for seat in seats {
        let Seat { actor, .. } = seat;
        parties.push(actor)?;
    }
    Ok(parties)
}
