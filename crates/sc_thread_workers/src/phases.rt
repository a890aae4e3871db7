//! Phases, in which workers take shells from one queue.
ghost use Rattle.std.specs.Prelude.{◌≡◌, ◌<◌, ◌≤◌, ◌*◌, ◌/◌, ◌^◌, [], length, min, vec_len, IfOk};
ghost use Rattle.sc_thread_work.specs.queue.Hands.{IsWorkedOff, known};
ghost use Rattle.sc_thread_workers.specs.Crews.{AllSound, HasPlayed, crew_numbers};
ghost use Rattle.sc_thread_workers.specs.Holders.{HaveOneHolder};
ghost use Rattle.sc_thread_workers.specs.Phases.{IsServed, AllServed, shells_of, rows_of_all, workers_for};

use crate::turns::made_row;
use sc_actor::{Actor, Gate};
use sc_thread_work::{Holder, Shell, WorkedOff, work_off};
use std::alloc::{AllocError, Global};
use std::mem;
use std::sync::Wait;
use std::thread::Threads;

/// The most turns that a worker gives a shell.
const MOST_TURNS: u32 = 16;

/// A shell to which a worker has given its turns, and the number of rows that they made.
#[derive(Drop)]
pub(crate) struct Served<A: Actor> {
    pub(crate) shell: Shell<A>,
    pub(crate) did: u32,
}

// Gives a shell up to `grant` turns, until one makes no row.
fn serve<A: Actor, G: Gate, R: Wait>(
    rt: &R,
    alloc: Global,
    gate: &G,
    mut shell: Shell<A>,
    grant: u32,
) -> Served<A>
    ensures { IsServed grant shell result }
{
    for did in 0..grant {
        if !made_row(rt, alloc, gate, &mut shell) {
            return Served { shell, did };
        }
    }
    Served { shell, did: grant }
}

// Gives all shells their turns, by `workers` workers that take from one queue.
fn serve_all<A: Actor, G: Gate, R: Threads + Wait + Sync>(
    rt: &R,
    alloc: Global,
    gate: &G,
    shells: Vec<Shell<A>>,
    workers: usize,
    grant: u32,
) -> Result<WorkedOff<Shell<A>, Served<A>>, AllocError>
    requires { workers ≤ 16 }
    ensures len { IfOk result (λ all. vec_len all.given ≡ vec_len shells) }
    ensures each { IfOk result (λ all. AllServed grant shells.items all.given.items) }
    ensures once { IfOk result (λ all. IsWorkedOff shells.items (known all.holder)) }
    ensures passes { IfOk result
        (λ all. 0 < length shells.items → (known all.holder).passes ≡ workers) }
{
    let all = work_off(
        rt,
        alloc,
        shells,
        workers,
        &|shell: Shell<A>| -> Served<A>
            ensures { IsServed grant shell result }
        { serve(rt, alloc, gate, shell, grant) },
    )?;
    Ok(all)
}

// Puts the shells back into the vector, and returns the number of rows that they made.
fn put_back<A: Actor>(shells: &mut Vec<Shell<A>>, all: Vec<Served<A>>) -> Result<u32, AllocError>
    requires empty { shells.old.items ≡ [] }
    requires fits { rows_of_all all.items < 2 ^ 32 }
    ensures shells { IfOk result (λ did. shells.new.items ≡ shells_of all.items) }
    ensures did { IfOk result (λ did. did ≡ rows_of_all all.items) }
{
    shells.reserve(all.len())?;
    let mut did = 0u32;
    for one in all {
        let Served { shell, did: more } = one;
        did += more;
        shells.push(shell)?;
    }
    Ok(did)
}

// Returns the number of turns that each shell may take, at most 16, so that all together make no
// more rows than are left.
fn grant_of(left: u32, many: usize) -> u32
    requires { 0 < many }
    ensures value { result ≡ min (left / many) MOST_TURNS }
    ensures fits { many * result ≤ left }
    ensures some { many ≤ left → 0 < result }
{
    (left as usize / many).min(MOST_TURNS as usize) as u32
}

// Returns the number of workers of a phase: one for every two shells with mail, but two where two
// have mail, at most `workers` and at least one. To start a thread costs as much as a shell's turns
// of a phase, so one for each shell with mail takes more time than it saves.
fn workers_for(waits: &[bool], workers: u32) -> usize
    requires { workers ≤ 16 }
    ensures value { result ≡ workers_for waits.now workers }
    ensures most { result ≤ 16 }
{
    let with_mail = waits.iter().filter(|wait| **wait).count();
    let wanted = with_mail.div_ceil(2).max(with_mail.min(2));
    wanted.min(workers as usize).max(1)
}

/// A phase that is over: the number of rows made in it, and the pass that put the shells into the
/// queue, which shows what was put and taken.
#[derive(Drop)]
pub(crate) struct PhaseDone<A: Actor> {
    pub(crate) did: u32,
    pub(crate) holder: Holder<Shell<A>>,
}

/// Puts each shell once into a queue, from which workers take. A worker gives a shell turns until
/// one makes no row, at most 16, and all shells together make at most `left` rows. Then the shells
/// are put back in their order. Returns the number of rows made, and the pass that put the shells,
/// which shows that at each moment a shell whose actor is among the shells once is in the queue or
/// with one worker, which has taken it once.
///
/// `waits` says for which of the shells mail waits: there is one worker for every two such shells,
/// and two where there are two, which the pass shows too. `Err(AllocError)`: memory ran out, and shells may be lost.
pub(crate) fn phase<A: Actor, G: Gate, R: Threads + Wait + Sync>(
    rt: &R,
    alloc: Global,
    gate: &G,
    waits: &[bool],
    shells: &mut Vec<Shell<A>>,
    workers: u32,
    left: u32,
) -> Result<PhaseDone<A>, AllocError>
    requires workers { workers ≤ 16 }
    requires many { (0 < length shells.old.items) × (length shells.old.items ≤ left) }
    requires sound { AllSound shells.old.items }
    ensures played { IfOk result (λ p. HasPlayed left shells.old.items shells.new.items p.did) }
    ensures once { IfOk result (λ p. IsWorkedOff shells.old.items (known p.holder)) }
    ensures holders { IfOk result
        (λ p. HaveOneHolder (crew_numbers shells.old.items) (known p.holder).put) }
    ensures passes { IfOk result
        (λ p. (known p.holder).passes ≡ workers_for waits.now workers) }
{
    let workers = workers_for(waits, workers);
    let grant = grant_of(left, shells.len());
    let all = mem::replace(shells, Vec::new(alloc));
    let off = serve_all(rt, alloc, gate, all, workers, grant)?;
    let WorkedOff {
        given: served,
        holder,
    } = off;
    let did = put_back(shells, served)?;
    Ok(PhaseDone { did, holder })
}
