//! The beginning of an exchange.
ghost use Rattle.std.specs.Prelude.{◌≡◌, ◌<◌, ◌≤◌, ◌^◌, [], true, All, Contains, IfOk};
ghost use Rattle.sc_thread_ports.specs.exchange.Ports.{given, joined_ports};
ghost use Rattle.sc_thread_drive.specs.CompanyRows.{HasOpened};
ghost use Rattle.sc_thread_drive.specs.ExchangeStarts.{Seated};
ghost use Rattle.sc_actor.specs.System.{are_apart};

use crate::company::{Company, Score};
use sc_actor::{Actor, Seat};
use sc_base::OutOfMemory;
use sc_thread_ports::Port;
use sc_thread_work::Shell;
use std::alloc::Global;

// Splits off a port for a seat, and returns a shell of its actor.
fn seat_one<A: Actor>(
    net: &mut Port<A::Mail, A::Order>,
    seat: Seat<A>,
) -> Result<Shell<A>, OutOfMemory>
    requires net { net.old.who ≡ 0 }
    requires number { (0 < seat.who) × (seat.who ≤ net.old.actors) }
    requires fresh { ¬ Contains (given net.old) seat.who }
    ensures { IfOk result (λ shell. Seated net.old net.new seat shell) }
{
    let Seat { who, actor } = seat;
    let port = net.split(who)?;
    Ok(Shell::new(actor, port))
}

/// Starts an exchange of `actors` actors, whose journal may have `limit` counted bytes, at most
/// 2^30. Returns a company with a shell for each seat, at a port of its own, in the order of the
/// seats.
///
/// The numbers of the seats must be different, each from 1 to `actors`.
pub fn open<A: Actor>(
    alloc: Global,
    seats: Vec<Seat<A>>,
    actors: u32,
    limit: u64,
) -> Result<Company<A>, OutOfMemory>
    requires limit { limit ≤ 2 ^ 30 }
    requires far { are_apart seats.items ≡ true }
    requires numbered { All (λ seat. (0 < seat.who) × (seat.who ≤ actors)) seats.items }
    ensures opened { IfOk result (HasOpened seats.items) }
    ensures unjoined { IfOk result (λ company. joined_ports company.net ≡ []) }
    ensures limit { IfOk result (λ company. company.net.limit ≡ limit) }
{
    let mut net = Port::start(alloc, actors, limit)?;
    let mut shells = Vec::new(alloc);
    for seat in seats {
        let shell = seat_one(&mut net, seat)?;
        shells.push(shell)?;
    }
    let score = Score {
        skipped: 0,
        unsettled: false,
        started: Vec::new(alloc),
    };
    Ok(Company { net, shells, score })
}
