//! How the parser adds what a line says to what was read so far.
ghost use Rattle.std.specs.Prelude.{◌≡◌, ◌≤◌, ◌+◌, ◌==◌, true, length, IfOk};
ghost use Rattle.std.specs.List.{list_any};
ghost use Rattle.sc_texts.specs.lines.Reasons.{IsSaid};
ghost use Rattle.sc_base.specs.Limits.{client_actor};
ghost use Rattle.sc_scenario.specs.scenario.Schedules.{is_client};
ghost use Rattle.sc_scenario.specs.scenario.Taking.{is_actor, is_order_known, is_line_known, is_above, with_group_line, has_stranger, group_taken, client_place, with_client, with_op, client_taken, request_taken, with_sched_line, line_of_order, with_order, line_taken, order_line_taken, taken_outside, taken_within};

use crate::scenario::drafts::{Draft, GroupLine, Reading};
use crate::scenario::groups::{have_repeat, set_of};
use crate::scenario::scenarios::{Asks, SchedLine};
use crate::scenario::statements::Statement;
use sc_base::{MOST_NODES, MOST_REQUESTS, Members, Op, OutOfMemory, Sequence};
use sc_texts::{LineError, Reason};
use sc_words::{Order, OrderLine};
use std::alloc::Global;

const MOST_GROUPS: usize = 16;

const MOST_MEMBERS: usize = 9;

fn is_client(clients: &[Asks], client: u16) -> bool
    ensures { result ≡ is_client clients.now client }
{
    clients.iter().any(|asks| asks.client == client)
}

fn is_client_actor(clients: &[Asks], who: u32) -> bool
    ensures { result ≡ list_any (λ asks. client_actor asks.client == who) clients.now }
{
    clients
        .iter()
        .any(|asks| MOST_NODES + asks.client as u32 == who)
}

fn is_actor(nodes: u16, clients: &[Asks], who: u32) -> bool
    ensures { result ≡ is_actor nodes clients.now who }
{
    who <= nodes as u32 || is_client_actor(clients, who)
}

fn is_order_known(nodes: u16, order: &Order) -> bool
    ensures { result ≡ is_order_known nodes order.now }
{
    match order {
        Order::Join { node, .. } | Order::Leave { node, .. } => *node <= nodes,
        Order::Migrate { node, .. } => *node <= nodes,
        Order::Split { .. } | Order::Merge { .. } | Order::Repart { .. } => true,
    }
}

fn is_line_known(nodes: u16, clients: &[Asks], line: &SchedLine) -> bool
    ensures { result ≡ is_line_known nodes clients.now line.now }
{
    match line {
        SchedLine::Go { client } => is_client(clients, *client),
        SchedLine::Deliver { who, .. } | SchedLine::Drop { who, .. } => {
            is_actor(nodes, clients, *who)
        }
        SchedLine::Tick { who } => is_actor(nodes, clients, *who),
        SchedLine::Crash { node } => *node <= nodes,
        SchedLine::Told { node, line } => *node <= nodes && is_order_known(nodes, &line.order),
        SchedLine::Again { .. } | SchedLine::Settle { .. } => true,
        SchedLine::Free { .. } | SchedLine::Storm { .. } => true,
    }
}

fn is_above(groups: &[GroupLine], lo: u32) -> bool
    ensures { result ≡ is_above groups.now lo }
{
    groups.len() == 0 || groups[groups.len() - 1].lo < lo
}

fn with_group_line(draft: Draft, lo: u32, members: Members) -> Result<Draft, OutOfMemory>
    ensures { IfOk result (λ more. more ≡ with_group_line draft lo members) }
{
    let mut more = draft;
    more.groups.push(GroupLine { lo, members })?;
    Ok(more)
}

fn has_stranger(most: u16, nodes: &[u16]) -> bool
    ensures { result ≡ has_stranger most nodes.now }
{
    nodes.iter().any(|node| most < *node)
}

fn group_taken(draft: Draft, lo: u32, first: u16, others: &[u16]) -> Result<Reading, LineError>
    ensures { IsSaid (group_taken draft lo first others.now) result }
{
    if draft.nodes < first || has_stranger(draft.nodes, others) {
        return Err(LineError::Bad(Reason::UnknownName));
    }
    if have_repeat(first, others) {
        return Err(LineError::Bad(Reason::Repeated));
    }
    if !is_above(draft.groups.as_slice(), lo) {
        return Err(LineError::Bad(Reason::BadBoundary));
    }
    if MOST_GROUPS <= draft.groups.len() || MOST_MEMBERS <= others.len() {
        return Err(LineError::Bad(Reason::TooMany));
    }
    let more = with_group_line(draft, lo, set_of(first, others))?;
    Ok(Reading::Outside(more))
}

// Returns the place of a client among others: before the first one with a greater number.
fn place_of(clients: &[Asks], client: u16) -> usize
    ensures same { result ≡ client_place client clients.now }
    ensures within { result ≤ length clients.now }
{
    for (i, other) in clients.iter().enumerate() {
        if client < other.client {
            return i;
        }
    }
    clients.len()
}

// Adds the client to the others, in the order of their numbers.
fn with_client(draft: Draft, asks: Asks) -> Result<Draft, OutOfMemory>
    ensures { IfOk result (λ more. more ≡ with_client draft asks) }
{
    let place = place_of(draft.clients.as_slice(), asks.client);
    let Draft {
        version,
        nodes,
        groups,
        policy,
        clients,
        lines,
        orders,
    } = draft;
    let mut all = clients.into_vec();
    all.insert(place, asks)?;
    Ok(Draft {
        version,
        nodes,
        groups,
        policy,
        clients: Sequence::from_vec(all),
        lines,
        orders,
    })
}

fn client_taken(alloc: Global, draft: Draft, client: u16) -> Result<Reading, Reason>
    ensures { result ≡ client_taken draft client }
{
    if is_client(draft.clients.as_slice(), client) {
        return Err(Reason::Repeated);
    }
    let asks = Asks {
        client,
        ops: Sequence::new(alloc),
    };
    Ok(Reading::Within(draft, asks))
}

fn request_taken(draft: Draft, asks: Asks, op: Op) -> Result<Reading, LineError>
    ensures { IsSaid (request_taken draft asks op) result }
{
    if MOST_REQUESTS <= asks.ops.len() {
        return Err(LineError::Bad(Reason::TooMany));
    }
    let Asks { client, mut ops } = asks;
    ops.push(op)?;
    Ok(Reading::Within(draft, Asks { client, ops }))
}

fn with_sched_line(draft: Draft, line: SchedLine) -> Result<Draft, OutOfMemory>
    ensures { IfOk result (λ more. more ≡ with_sched_line draft line) }
{
    let mut more = draft;
    more.lines.push(line)?;
    Ok(more)
}

// Adds an order to the schedule. Its number is the next one.
fn with_order(draft: Draft, line: SchedLine, number: u32) -> Result<Draft, OutOfMemory>
    requires { number ≡ draft.orders + 1 }
    ensures { IfOk result (λ more. more ≡ with_order draft line) }
{
    let mut more = draft;
    more.lines.push(line)?;
    more.orders = number;
    Ok(more)
}

fn line_taken(draft: Draft, line: SchedLine) -> Result<Reading, LineError>
    ensures { IsSaid (line_taken draft line) result }
{
    if !is_line_known(draft.nodes, draft.clients.as_slice(), &line) {
        return Err(LineError::Bad(Reason::UnknownName));
    }
    let more = with_sched_line(draft, line)?;
    Ok(Reading::Outside(more))
}

// More orders than there are numbers do not fit into memory.
fn order_line_taken(draft: Draft, node: u16, order: Order) -> Result<Reading, LineError>
    ensures { IsSaid (order_line_taken draft (line_of_order draft node order)) result }
{
    let number = draft.orders.checked_add(1).ok_or(OutOfMemory)?;
    let line = OrderLine { number, order };
    let told = SchedLine::Told { node, line };
    if !is_line_known(draft.nodes, draft.clients.as_slice(), &told) {
        return Err(LineError::Bad(Reason::UnknownName));
    }
    let more = with_order(draft, told, number)?;
    Ok(Reading::Outside(more))
}

fn with_nodes(draft: Draft, nodes: u16) -> Draft
    ensures { result ≡ record draft { nodes = nodes } }
{
    let mut more = draft;
    more.nodes = nodes;
    more
}

fn with_policy(draft: Draft) -> Draft
    ensures { result ≡ record draft { policy = true } }
{
    let mut more = draft;
    more.policy = true;
    more
}

/// Returns the state of the parser after a statement outside the sections, or the reason why it is
/// bad.
pub(crate) fn taken_outside(
    alloc: Global,
    draft: Draft,
    statement: Statement,
) -> Result<Reading, LineError>
    ensures { IsSaid (taken_outside draft statement) result }
{
    match statement {
        Statement::NodeCount(nodes) => Ok(Reading::Outside(with_nodes(draft, nodes))),
        Statement::NewGroup(lo, first, others) => {
            group_taken(draft, lo, first, others.as_slice())
        }
        Statement::WithPolicy => Ok(Reading::Outside(with_policy(draft))),
        Statement::NewClient(client) => Ok(client_taken(alloc, draft, client)?),
        Statement::Ask(_) | Statement::SectionEnd => Err(LineError::Bad(Reason::OutOfPlace)),
        Statement::Play(line) => line_taken(draft, line),
        Statement::GiveOrder(node, order) => order_line_taken(draft, node, order),
    }
}

/// Returns the state of the parser after a statement inside a client's section, or the reason why
/// it is bad.
pub(crate) fn taken_within(
    draft: Draft,
    asks: Asks,
    statement: Statement,
) -> Result<Reading, LineError>
    ensures { IsSaid (taken_within draft asks statement) result }
{
    match statement {
        Statement::Ask(op) => request_taken(draft, asks, op),
        Statement::SectionEnd => Ok(Reading::Outside(with_client(draft, asks)?)),
        Statement::NodeCount(_) | Statement::NewGroup(_, _, _) => Err(LineError::Bad(
            Reason::OutOfPlace,
        )),
        Statement::WithPolicy | Statement::NewClient(_) => Err(LineError::Bad(Reason::OutOfPlace)),
        Statement::Play(_) | Statement::GiveOrder(_, _) => Err(LineError::Bad(Reason::OutOfPlace)),
    }
}
