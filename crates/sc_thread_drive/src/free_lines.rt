//! A `free` line: many deliveries by many workers.
ghost use Rattle.std.specs.Prelude.{[], ◌∷◌, OnOk};
ghost use Rattle.sc_actor.specs.Walk.{Frees};
ghost use Rattle.sc_thread_drive.specs.Rows.{OnFull};
ghost use Rattle.sc_thread_drive.specs.CompanyRows.{AreTogether, LineEnded, LineRefused};

use crate::company::Company;
use crate::ways::freed;
use sc_actor::{Actor, Gate};
use sc_thread_ports::PostError;
use sc_thread_workers::{Rounds, Way, gather};
use std::alloc::Global;
use std::sync::Wait;
use std::thread::Threads;

/// Runs a `free` line: up to `most` deliveries, each of the first pending mail of any actor, by
/// `workers` workers, from 1 to 16, in rounds or by a pool.
pub(crate) fn run_free<A: Actor, G: Gate, R: Threads + Wait + Sync>(
    rt: &R,
    alloc: Global,
    way: Way,
    company: &mut Company<A>,
    most: u32,
    workers: u32,
    gate: &G,
) -> Result<(), PostError>
    requires together { AreTogether company.old }
    ensures goes { OnOk result (LineEnded (Frees most ∷ []) [] company.old company.new) }
    ensures fills { OnFull result
        (LineRefused (Frees most ∷ []) company.old company.new) }
{
    let crew = workers.max(1).min(16);
    let Company { net, shells, score } = company;
    let end = freed(rt, alloc, way, net, shells, crew, most, gate)?;
    let _ = gather(rt, net, shells);
    match end {
        Rounds::Quiet { .. } => Ok(()),
        Rounds::Limit { .. } => {
            score.unsettled = true;
            Ok(())
        }
        Rounds::Full { bytes } => Err(PostError::JournalFull { bytes }),
        Rounds::OutOfMemory => Err(PostError::OutOfMemory),
    }
}
