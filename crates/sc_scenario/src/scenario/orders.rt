//! The orders to nodes.
ghost use Rattle.std.specs.Prelude.{◌≡◌, map, IfOk};
ghost use Rattle.sc_texts.specs.lines.Reasons.{IsSaid};
ghost use Rattle.sc_scenario.specs.scenario.Orders.{name_in_parts, name_in, order_in};
ghost use Rattle.sc_texts.specs.declared.lines.kinds.OrderKind.TheVariants.{Join, Leave, Split, Merge, Repart, Migrate};

use sc_base::{Draw, MOST_NODES, OutOfMemory, read_number};
use sc_texts::{LineError, OrderKind, Reason, count_in, dotted_parts, nth};
use sc_words::Order;
use std::alloc::Global;

const MOST_NAMES: u32 = 4_294_967_295;

/// The last position of the circle.
pub(crate) const LAST_POSITION: u64 = 4_294_967_295;

fn name_of(parts: &[&[u8]]) -> Option<Draw>
    ensures { result ≡ name_in_parts (map (λ part. part.now) parts.now) }
{
    if parts.len() != 2 {
        return None;
    }
    let node = read_number(nth(parts, 0), MOST_NODES as u64)? as u16;
    let count = count_in(nth(parts, 1), MOST_NAMES)?;
    Some(Draw { node, count })
}

// Returns the group's name that a word spells, if it spells one.
fn name_in(alloc: Global, word: &[u8]) -> Result<Option<Draw>, OutOfMemory>
    ensures { IfOk result (λ name. name ≡ name_in word.now) }
{
    let parts = dotted_parts(alloc, word)?;
    Ok(name_of(&parts))
}

fn join_in(alloc: Global, words: &[&[u8]]) -> Result<Order, LineError>
    ensures { IsSaid (order_in Join (map (λ word. word.now) words.now)) result }
{
    let node = count_in(nth(words, 3), MOST_NODES).ok_or(Reason::BadNumber)?;
    let group = name_in(alloc, nth(words, 4))?.ok_or(Reason::BadNumber)?;
    Ok(Order::Join {
        node: node as u16,
        group,
    })
}

fn leave_in(alloc: Global, words: &[&[u8]]) -> Result<Order, LineError>
    ensures { IsSaid (order_in Leave (map (λ word. word.now) words.now)) result }
{
    let node = count_in(nth(words, 3), MOST_NODES).ok_or(Reason::BadNumber)?;
    let group = name_in(alloc, nth(words, 4))?.ok_or(Reason::BadNumber)?;
    Ok(Order::Leave {
        node: node as u16,
        group,
    })
}

fn split_in(alloc: Global, words: &[&[u8]]) -> Result<Order, LineError>
    ensures { IsSaid (order_in Split (map (λ word. word.now) words.now)) result }
{
    let group = name_in(alloc, nth(words, 3))?.ok_or(Reason::BadNumber)?;
    let at = read_number(nth(words, 4), LAST_POSITION).ok_or(Reason::BadNumber)?;
    Ok(Order::Split {
        group,
        at: at as u32,
    })
}

fn merge_in(alloc: Global, words: &[&[u8]]) -> Result<Order, LineError>
    ensures { IsSaid (order_in Merge (map (λ word. word.now) words.now)) result }
{
    let group = name_in(alloc, nth(words, 3))?.ok_or(Reason::BadNumber)?;
    Ok(Order::Merge { group })
}

fn repart_in(alloc: Global, words: &[&[u8]]) -> Result<Order, LineError>
    ensures { IsSaid (order_in Repart (map (λ word. word.now) words.now)) result }
{
    let group = name_in(alloc, nth(words, 3))?.ok_or(Reason::BadNumber)?;
    let at = read_number(nth(words, 4), LAST_POSITION).ok_or(Reason::BadNumber)?;
    Ok(Order::Repart {
        group,
        at: at as u32,
    })
}

fn migrate_in(alloc: Global, words: &[&[u8]]) -> Result<Order, LineError>
    ensures { IsSaid (order_in Migrate (map (λ word. word.now) words.now)) result }
{
    let group = name_in(alloc, nth(words, 3))?.ok_or(Reason::BadNumber)?;
    let node = count_in(nth(words, 4), MOST_NODES).ok_or(Reason::BadNumber)?;
    Ok(Order::Migrate {
        group,
        node: node as u16,
    })
}

/// Returns the order of this kind that a line spells. The error is `BadNumber`, where a word
/// spells no node, group or position.
pub(crate) fn order_in(alloc: Global, kind: OrderKind, words: &[&[u8]]) -> Result<Order, LineError>
    ensures { IsSaid (order_in kind (map (λ word. word.now) words.now)) result }
{
    match kind {
        OrderKind::Join => join_in(alloc, words),
        OrderKind::Leave => leave_in(alloc, words),
        OrderKind::Split => split_in(alloc, words),
        OrderKind::Merge => merge_in(alloc, words),
        OrderKind::Repart => repart_in(alloc, words),
        OrderKind::Migrate => migrate_in(alloc, words),
        OrderKind::Short => Err(LineError::Bad(Reason::WrongCount)),
    }
}
