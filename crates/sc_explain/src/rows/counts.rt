//! The number of pairs of a group after an operation, by the reply of the operation.
ghost use Rattle.std.specs.Prelude.{◌≡◌, map, IfOk};
ghost use Rattle.sc_explain.specs.rows.Counts.{count_after, one_more, one_less, recounted};

use crate::facts::RingGroup;
use sc_base::{Draw, Op, OutOfMemory, Reply, Value, same_draw};
use std::alloc::Global;

fn one_more(old: &Option<Value>, count: u64) -> Result<u64, OutOfMemory>
    ensures { IfOk result (λ more. more ≡ one_more old.now count) }
{
    match old {
        None => match count.checked_add(1) {
            Some(more) => Ok(more),
            None => Err(OutOfMemory),
        },
        Some(_) => Ok(count),
    }
}

fn one_less(old: &Option<Value>, count: u64) -> u64
    ensures { result ≡ one_less old.now count }
{
    match old {
        None => count,
        Some(_) => count.saturating_sub(1),
    }
}

// Returns the number of pairs after an operation with this reply, where there were `count` before.
fn count_after(op: &Op, reply: &Reply, count: u64) -> Result<u64, OutOfMemory>
    ensures { IfOk result (λ after. after ≡ count_after op.now reply.now.old count) }
{
    match op {
        Op::Get { .. } | Op::Cas { .. } => Ok(count),
        Op::Put { .. } | Op::Add { .. } => one_more(&reply.old, count),
        Op::Del { .. } => Ok(one_less(&reply.old, count)),
    }
}

fn recounted(
    group: &RingGroup,
    name: Draw,
    op: &Op,
    reply: &Reply,
) -> Result<RingGroup, OutOfMemory>
    ensures { IfOk result (λ after. after ≡ recounted name op.now reply.now.old group.now) }
{
    if !same_draw(group.name, name) {
        return Ok(*group);
    }
    Ok(RingGroup {
        arc: group.arc,
        name: group.name,
        pairs: count_after(op, reply, group.pairs)?,
        pred: group.pred,
        succ: group.succ,
    })
}

/// Returns what is said of the groups of the ring after the group with a name carried out an
/// operation with this reply: the number of its pairs is counted on, and all else stays.
pub(crate) fn recount(
    alloc: Global,
    groups: &[RingGroup],
    name: Draw,
    op: &Op,
    reply: &Reply,
) -> Result<Vec<RingGroup>, OutOfMemory>
    ensures { IfOk result
        (λ after. after.items ≡ map (recounted name op.now reply.now.old) groups.now) }
{
    let mut after = Vec::with_capacity(alloc, groups.len())?;
    for group in groups {
        after.push(recounted(group, name, op, reply)?)?;
    }
    Ok(after)
}
