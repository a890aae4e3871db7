//! What a line says, each line by itself.
ghost use Rattle.std.specs.Prelude.{◌≡◌, map};
ghost use Rattle.sc_texts.specs.lines.Reasons.{IsSaid};
ghost use Rattle.sc_scenario.specs.scenario.Statements.{statement_in};
ghost use Rattle.sc_texts.specs.declared.lines.kinds.Kind.TheVariants.{Nodes, Group, Client, GivingOrder};

use crate::scenario::groups::nodes_with;
use crate::scenario::orders::{LAST_POSITION, order_in};
use crate::scenario::scenarios::SchedLine;
use crate::scenario::schedules::line_in;
use sc_base::{MOST_CLIENTS, MOST_NODES, Op, Sequence, read_number};
use sc_texts::{Kind, LineError, OrderKind, Reason, count_in, nth, request_in, rest};
use sc_words::Order;
use std::alloc::Global;

/// What a line says.
#[derive(Drop)]
pub(crate) enum Statement {
    /// The number of nodes.
    NodeCount(u16),
    /// A group: where it begins, its first node as it is listed, and its other nodes.
    NewGroup(u32, u16, Sequence<u16>),
    /// There is a policy.
    WithPolicy,
    /// The section of this client begins.
    NewClient(u16),
    /// A request of the client whose section it is.
    Ask(Op),
    /// The section ends.
    SectionEnd,
    /// A line of the schedule that is no order.
    Play(SchedLine),
    /// An order to a node.
    GiveOrder(u16, Order),
}

fn nodes_said(words: &[&[u8]]) -> Result<Statement, Reason>
    ensures { result ≡ statement_in Nodes (map (λ word. word.now) words.now) }
{
    let nodes = count_in(nth(words, 1), MOST_NODES).ok_or(Reason::BadNumber)?;
    Ok(Statement::NodeCount(nodes as u16))
}

fn client_said(words: &[&[u8]]) -> Result<Statement, Reason>
    ensures { result ≡ statement_in Client (map (λ word. word.now) words.now) }
{
    let client = count_in(nth(words, 1), MOST_CLIENTS).ok_or(Reason::BadNumber)?;
    Ok(Statement::NewClient(client as u16))
}

fn group_said(alloc: Global, words: &[&[u8]]) -> Result<Statement, LineError>
    ensures { IsSaid (statement_in Group (map (λ word. word.now) words.now)) result }
{
    let lo = read_number(nth(words, 1), LAST_POSITION).ok_or(Reason::BadNumber)?;
    let first = count_in(nth(words, 2), MOST_NODES).ok_or(Reason::BadNumber)?;
    let others = nodes_with(Sequence::new(alloc), rest(words, 3))?.ok_or(Reason::BadNumber)?;
    Ok(Statement::NewGroup(lo as u32, first as u16, others))
}

fn order_said(alloc: Global, kind: OrderKind, words: &[&[u8]]) -> Result<Statement, LineError>
    ensures { IsSaid (statement_in (GivingOrder kind) (map (λ word. word.now) words.now)) result }
{
    let node = count_in(nth(words, 1), MOST_NODES).ok_or(Reason::BadNumber)?;
    let order = order_in(alloc, kind, words)?;
    Ok(Statement::GiveOrder(node as u16, order))
}

/// Returns what a line of this kind with these words says, or the first reason why it is bad.
pub(crate) fn statement_in(
    alloc: Global,
    kind: Kind,
    words: &[&[u8]],
) -> Result<Statement, LineError>
    ensures { IsSaid (statement_in kind (map (λ word. word.now) words.now)) result }
{
    match kind {
        Kind::Header => Err(LineError::Bad(Reason::OutOfPlace)),
        Kind::Nodes => Ok(nodes_said(words)?),
        Kind::Group => group_said(alloc, words),
        Kind::Policy => Ok(Statement::WithPolicy),
        Kind::Client => Ok(client_said(words)?),
        Kind::End => Ok(Statement::SectionEnd),
        Kind::Asking(kind) => Ok(Statement::Ask(request_in(alloc, kind, words)?)),
        Kind::Playing(kind) => Ok(Statement::Play(line_in(kind, words)?)),
        Kind::GivingOrder(kind) => order_said(alloc, kind, words),
    }
}
