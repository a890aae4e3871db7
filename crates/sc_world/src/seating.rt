//! The actors and the schedule of a scenario.
ghost use Rattle.std.specs.Prelude.{◌≡◌, ◌≤◌, ◌↔◌, IsTrue, true, length, All, IfOk, OnOk, ◌++◌, map};
ghost use Rattle.sc_base.specs.Limits.{most_requests};
ghost use Rattle.sc_node_table.specs.Slots.{numbers_from};
ghost use Rattle.sc_node_table.specs.Node.{are_in_order};
ghost use Rattle.sc_meaning.specs.sound.Players.{births, schedule, node_seat, client_seat, client_seats, route_of, line_of, AreFew, as_nodes};

use crate::party::Party;
use sc_actor::{Line, Seat};
use sc_base::{Dup, MOST_CLIENTS, MOST_NODES, MOST_REQUESTS, OutOfMemory, Sequence};
use sc_client::ClientCore;
use sc_mail::client_number;
use sc_node::NodeCore;
use sc_scenario::{Asks, Scenario, SchedLine};
use sc_words::{Base, OrderLine, Route};
use std::alloc::Global;

/// The greatest number of an actor: that of the last client.
pub const MOST_ACTOR: u32 = MOST_NODES + MOST_CLIENTS;

fn node_seat(
    alloc: Global,
    groups: &Sequence<Base>,
    policy: bool,
    me: u16,
) -> Result<Seat<Party>, OutOfMemory>
    requires { are_in_order groups.now ≡ true }
    ensures { IfOk result (λ seat. seat ≡ node_seat as_nodes groups.now policy me) }
{
    let node = NodeCore::born(alloc, me, groups, policy)?;
    Ok(Seat {
        who: me as u32,
        actor: Party::Node(node),
    })
}

/// Returns the route that a client is given to a group at its birth.
pub(crate) fn route_of(base: &Base) -> Route
    ensures { result ≡ route_of base.now }
{
    Route {
        group: base.core.id,
        lo: base.core.arc.lo(),
        members: base.core.members,
    }
}

fn client_seat(alloc: Global, first: &Route, asks: &Asks) -> Result<Seat<Party>, OutOfMemory>
    requires { length asks.now.ops ≤ most_requests }
    ensures { IfOk result (λ seat. seat ≡ client_seat first.now asks.now) }
{
    let client = ClientCore::born(alloc, asks.client, asks.ops.dup(alloc)?, *first)?;
    Ok(Seat {
        who: client_number(asks.client),
        actor: Party::Client(client),
    })
}

fn add_nodes(
    alloc: Global,
    seats: &mut Vec<Seat<Party>>,
    groups: &Sequence<Base>,
    policy: bool,
    nodes: u16,
) -> Result<(), OutOfMemory>
    requires { are_in_order groups.now ≡ true }
    ensures { OnOk result (seats.new.items ≡
        seats.old.items ++ map (node_seat as_nodes groups.now policy) (numbers_from 1 nodes)) }
{
    for done in 0..nodes {
        seats.push(node_seat(alloc, groups, policy, done + 1)?)?;
    }
    Ok(())
}

fn add_asking(
    alloc: Global,
    seats: &mut Vec<Seat<Party>>,
    first: &Route,
    clients: &[Asks],
) -> Result<(), OutOfMemory>
    requires { All (λ asks. length asks.ops ≤ most_requests) clients.now }
    ensures { OnOk result (seats.new.items ≡
        seats.old.items ++ map (client_seat first.now) clients.now) }
{
    for asks in clients {
        seats.push(client_seat(alloc, first, asks)?)?;
    }
    Ok(())
}

fn add_clients(
    alloc: Global,
    seats: &mut Vec<Seat<Party>>,
    groups: &[Base],
    clients: &[Asks],
) -> Result<(), OutOfMemory>
    requires { All (λ asks. length asks.ops ≤ most_requests) clients.now }
    ensures { OnOk result (seats.new.items ≡
        seats.old.items ++ client_seats groups.now clients.now) }
{
    match groups {
        [] => Ok(()),
        [base, ..] => add_asking(alloc, seats, &route_of(base), clients),
    }
}

/// Returns the nodes and then the clients of a scenario at their births. The groups have to stand
/// in the order of their names, and no client may have more requests than the limit. The only error
/// is out of memory.
pub fn births(alloc: Global, scenario: &Scenario) -> Result<Vec<Seat<Party>>, OutOfMemory>
    requires ordered { are_in_order scenario.now.groups ≡ true }
    requires few { AreFew scenario.now }
    ensures { IfOk result (λ seats. seats.items ≡ births as_nodes scenario.now) }
{
    let mut seats = Vec::new(alloc);
    add_nodes(
        alloc,
        &mut seats,
        &scenario.groups,
        scenario.policy,
        scenario.nodes,
    )?;
    let groups = scenario.groups.as_slice();
    add_clients(alloc, &mut seats, groups, scenario.clients.as_slice())?;
    Ok(seats)
}

fn line_of(line: &SchedLine) -> Line<OrderLine>
    ensures { result ≡ line_of line.now }
{
    match line {
        SchedLine::Go { client } => Line::Go {
            who: client_number(*client),
        },
        SchedLine::Deliver { who, k } => Line::Deliver { who: *who, k: *k },
        SchedLine::Drop { who, k } => Line::Drop { who: *who, k: *k },
        SchedLine::Again { mail } => Line::Again { mail: *mail },
        SchedLine::Tick { who } => Line::Tick { who: *who },
        SchedLine::Crash { node } => Line::Crash { who: *node as u32 },
        SchedLine::Told { node, line } => Line::Told {
            who: *node as u32,
            order: *line,
        },
        SchedLine::Settle { most } => Line::Settle { most: *most },
        SchedLine::Free { most, workers } => Line::Free {
            most: *most,
            workers: *workers,
        },
        SchedLine::Storm { number, most } => Line::Storm {
            number: *number,
            most: *most,
        },
    }
}

/// Returns the schedule of a scenario, as lines of the walk. The only error is out of memory.
pub fn schedule(alloc: Global, scenario: &Scenario) -> Result<Vec<Line<OrderLine>>, OutOfMemory>
    ensures { IfOk result (λ lines. lines.items ≡ schedule scenario.now) }
{
    let mut lines = Vec::new(alloc);
    for line in scenario.lines.as_slice() {
        lines.push(line_of(line))?;
    }
    Ok(lines)
}

/// Returns whether no client has more requests than the limit.
pub fn has_few_requests(scenario: &Scenario) -> bool
    ensures { IsTrue result ↔ AreFew scenario.now }
{
    scenario
        .clients
        .as_slice()
        .iter()
        .all(|asks| asks.ops.len() <= MOST_REQUESTS)
}
