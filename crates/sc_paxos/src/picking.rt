//! The choice of a value from the reports of acceptors.
ghost use Rattle.std.specs.Prelude.{◌≡◌, IfOk, IsOk, None};
ghost use Rattle.std.specs.Option.{option_copied};
ghost use Rattle.sc_words.specs.paxos.Choice.{choice, chosen_value, is_better};

use sc_base::{Dup, OutOfMemory};
use sc_words::Report;
use std::alloc::Global;

/// Returns the value of the highest ballot among the reports of a slot, and of several with that
/// ballot the first in the list (Paxos Made Simple, section 2.2, phase 2a). Returns `None` exactly
/// where no report names the slot, and then allocates nothing.
pub fn pick<V: Dup>(
    alloc: Global,
    slot: u32,
    reports: &Vec<Report<V>>,
) -> Result<Option<V>, OutOfMemory>
    ensures value { IfOk result (λ picked. picked ≡ chosen_value slot reports.now.items) }
    ensures none { chosen_value slot reports.now.items ≡ None → IsOk result }
{
    match best_of(slot, reports.as_slice()) {
        Some(best) => Ok(Some(best.value.dup(alloc)?)),
        None => Ok(None),
    }
}

/// Returns the report that is chosen.
fn best_of<'a, V>(slot: u32, reports: &'a [Report<V>]) -> Option<&'a Report<V>>
    ensures { option_copied result ≡ choice slot reports.now }
{
    let mut best: Option<&'a Report<V>> = None;
    for report in reports {
        if is_better(slot, best, report) {
            best = Some(report);
        }
    }
    best
}

/// Returns whether a report names the slot and has a higher ballot than the best so far, if there
/// is one.
fn is_better<V>(slot: u32, best: Option<&Report<V>>, report: &Report<V>) -> bool
    ensures { result ≡ is_better slot (option_copied best.entry) report.now }
{
    if report.slot != slot {
        return false;
    }
    match best {
        None => true,
        Some(best) => best.ballot < report.ballot,
    }
}
