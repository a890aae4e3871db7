//! The driver of rounds and phases.
ghost use Rattle.std.specs.Prelude.{◌≡◌, ◌≢◌, ℕ, ◌<◌, ◌≤◌, ◌+◌, ◌*◌, [], length, All, None, Some, IfSome, vec_len};
ghost use Rattle.std.specs.Thread.{IsSync};
ghost use Rattle.sc_thread_work.specs.lend.Offices.{IsHelperOf, IsLenderOf, lent_by};
ghost use Rattle.sc_thread_workers.specs.RoundEnds.{IsEnd, StepEnd, RefusedEnd, IsGathered, CanBegin, IfCalm, IfHeld, IfKept};
ghost use Rattle.sc_thread_workers.specs.Crews.{AllOf, AllSound, AreLater, AreStill, HasPlayed, IsCrew, crew_numbers, rows_made};
ghost use Rattle.sc_thread_workers.specs.Holders.{PhasesHaveOneHolder};
ghost use Rattle.sc_thread_workers.specs.Services.{AllServe};

use crate::answers::{Rounds, Way};
use crate::lending::{Run, at_once, help};
use crate::meetings::{gather, meet, numbers_of, vouch};
use crate::phases::{PhaseDone, phase};
use crate::turns::{any_of, did_in, in_order, refused_in};
use sc_actor::{Actor, Gate};
use sc_thread_ports::Port;
use sc_thread_work::{Helper, Lender, Office, Shell, Turn, open};
use std::alloc::Global;
use std::mem;
use std::sync::Wait;
use std::thread::{Threads, join_mut};

/// The number of runs that may be lent at one time: at least as many as there are beside the
/// caller's own.
const MOST_LOANS: usize = 16;

/// What stays the same from round to round: the way, the most workers and deliveries, and the
/// office where runs are lent.
#[derive(Drop)]
struct Play<'a, A: Actor> {
    alloc: Global,
    way: Way,
    workers: u32,
    limit: u32,
    desk: &'a Office<Run<A>>,
}

// Returns the number of neighbours in a run, so that `many` shells make at most `runs` runs.
fn run_size(many: usize, runs: u32) -> usize
    requires { (0 < many) × (0 < runs) }
    ensures some { 0 < result }
    ensures few { many ≤ result * runs }
{
    many.div_ceil(runs as usize)
}

// Plays one round or one phase. In a round there are at most as many runs as workers; fewer than
// that are lent, and one takes its turns here. Returns the number of deliveries made, or `None`
// where memory for a phase ran out.
fn play_round<A: Actor, G: Gate, R: Threads + Wait + Sync>(
    rt: &R,
    gate: &G,
    play: &Play<'_, A>,
    lender: &mut Lender<Run<A>>,
    waits: &[bool],
    shells: &mut Vec<Shell<A>>,
    left: u32,
) -> Option<u32>
    requires workers { (0 < play.now.workers) × (play.now.workers ≤ 16) }
    requires sound { AllSound shells.old.items }
    requires lender { IsLenderOf play.now.desk.now lender.old }
    ensures lender { IsLenderOf play.now.desk.now lender.new }
    ensures played { IfSome result
        (λ did. HasPlayed left shells.old.items shells.new.items did) }
    ensures none { result ≡ None → play.now.way ≡ Way.Queue }
    ensures few { length (lent_by lender.new) < length (lent_by lender.old) + play.now.workers }
{
    let alloc = play.alloc;
    if shells.is_empty() || (left as usize) < shells.len() {
        return Some(in_order(rt, alloc, gate, shells.as_mut_slice(), left));
    }
    match play.way {
        Way::Runs => {
            let size = run_size(shells.len(), play.workers);
            at_once(rt, alloc, gate, play.desk, lender, waits, size, shells);
            Some(did_in(shells.as_slice()))
        }
        Way::Queue => {
            let Ok(over) = phase(rt, alloc, gate, waits, shells, play.workers, left) else {
                return None;
            };
            let PhaseDone { did, holder: _ } = over;
            Some(did)
        }
    }
}

// Prepares a round: lets all shells meet and vouch, returns how the rounds end where they end here,
// and notes for which shells mail waits.
fn prepare<A: Actor, R: Wait>(
    rt: &R,
    net: &mut Port<A::Mail, A::Order>,
    shells: &mut Vec<Shell<A>>,
    whos: &[u32],
    limit: u32,
    used: u32,
    waits: &mut Vec<bool>,
) -> Option<Rounds>
    requires exchange { AllOf net.old shells.old.items }
    requires used { used ≤ limit }
    ensures still { AreStill net.old net.new shells.old.items shells.new.items }
    ensures gathered { IfHeld result (IsGathered net.new shells.new.items) }
    ensures begin { result ≡ None → CanBegin net.new shells.new.items whos.now × (used < limit) }
    ensures end { IfSome result
        (λ answer. StepEnd answer net.new shells.old.items shells.new.items whos.now limit used) }
    ensures none { whos.now ≡ [] → result ≢ Some Rounds.OutOfMemory }
{
    meet(rt, net, shells);
    let Ok(found) = net.waiting(rt, whos) else {
        return Some(Rounds::OutOfMemory);
    };
    vouch(net, shells);
    let any = any_of(found.as_slice());
    *waits = found;
    if !any {
        return Some(Rounds::Quiet { used });
    }
    if used == limit {
        return Some(Rounds::Limit { used });
    }
    None
}

// Returns how the rounds end by a refusal, after a last meeting.
fn ended<A: Actor, R: Wait>(
    rt: &R,
    net: &mut Port<A::Mail, A::Order>,
    shells: &mut Vec<Shell<A>>,
    refused: Turn,
) -> Rounds
    requires exchange { AllOf net.old shells.old.items }
    ensures still { AreStill net.old net.new shells.old.items shells.new.items }
    ensures end { RefusedEnd result refused net.new shells.new.items }
    ensures none { (bytes : ℕ) → refused ≡ Turn.Full bytes → result ≢ Rounds.OutOfMemory }
{
    let Turn::Full { bytes } = refused else {
        return Rounds::OutOfMemory;
    };
    let _ = gather(rt, net, shells);
    Rounds::Full { bytes }
}

/// What changes from round to round: the number of deliveries made, and for which shells' actors
/// mail waits.
#[derive(Drop)]
struct Standing {
    used: u32,
    waits: Vec<bool>,
}

// Plays one round or phase and prepares the next. Returns how the rounds end, or `None` where
// another round follows. A round in which no turn is refused makes at least one delivery.
fn step<A: Actor, G: Gate, R: Threads + Wait + Sync>(
    rt: &R,
    gate: &G,
    play: &Play<'_, A>,
    whos: &[u32],
    lender: &mut Lender<Run<A>>,
    net: &mut Port<A::Mail, A::Order>,
    shells: &mut Vec<Shell<A>>,
    standing: &mut Standing,
) -> Option<Rounds>
    requires workers { (0 < play.now.workers) × (play.now.workers ≤ 16) }
    requires lender { IsLenderOf play.now.desk.now lender.old }
    requires crew { IsCrew net.old shells.old.items }
    requires whos { whos.now ≡ crew_numbers shells.old.items }
    requires begin { CanBegin net.old shells.old.items whos.now }
    requires used { standing.old.used < play.now.limit }
    ensures lender { IsLenderOf play.now.desk.now lender.new }
    ensures later { IfKept play.now.way result
        (AreLater net.old net.new shells.old.items shells.new.items) }
    ensures used { standing.new.used ≤ play.now.limit }
    ensures count { IfHeld result
        (rows_made shells.new.items + standing.old.used ≡ rows_made shells.old.items + standing.new.used) }
    ensures serves { IfCalm result (standing.old.used < standing.new.used) }
    ensures served { IfHeld result (AllServe net.new shells.old.items) }
    ensures sound { IfCalm result (AllSound shells.new.items) }
    ensures begin { result ≡ None → CanBegin net.new shells.new.items whos.now
        × (standing.new.used < play.now.limit) }
    ensures end { IfSome result
        (λ answer.
        StepEnd answer net.new shells.old.items shells.new.items whos.now play.now.limit
        standing.new.used) }
{
    meet(rt, net, shells);
    let flags = standing.waits.as_slice();
    let left = play.limit - standing.used;
    let Some(did) = play_round(rt, gate, play, lender, flags, shells, left) else {
        return Some(Rounds::OutOfMemory);
    };
    standing.used += did;
    match refused_in(shells.as_slice()) {
        None => prepare(
            rt,
            net,
            shells,
            whos,
            play.limit,
            standing.used,
            &mut standing.waits,
        ),
        Some(refused) => Some(ended(rt, net, shells, refused)),
    }
}

// Plays rounds or phases until they end, by the rules of `rounds_by`.
fn played<A: Actor, G: Gate, R: Threads + Wait + Sync>(
    rt: &R,
    gate: &G,
    play: &Play<'_, A>,
    lender: &mut Lender<Run<A>>,
    net: &mut Port<A::Mail, A::Order>,
    shells: &mut Vec<Shell<A>>,
) -> Rounds
    requires workers { (1 ≤ play.now.workers) × (play.now.workers ≤ 16) }
    requires crew { IsCrew net.old shells.old.items }
    requires lender { IsLenderOf play.now.desk.now lender.old }
    ensures later { IfKept play.now.way (Some result)
        (AreLater net.old net.new shells.old.items shells.new.items) }
    ensures end { IsEnd result net.new shells.old.items shells.new.items (crew_numbers shells.old.items)
        play.now.limit }
{
    let Ok(whos) = numbers_of(play.alloc, shells.as_slice()) else {
        return Rounds::OutOfMemory;
    };
    let mut waits = Vec::new(play.alloc);
    if let Some(answer) = prepare(rt, net, shells, whos.as_slice(), play.limit, 0, &mut waits) {
        return answer;
    }
    let mut standing = Standing { used: 0, waits };
    loop {
        let whos = whos.as_slice();
        if let Some(answer) = step(rt, gate, play, whos, lender, net, shells, &mut standing) {
            return answer;
        }
    }
}

// Plays rounds or phases until they end, and then closes the office, so that the helpers can end.
fn played_out<A: Actor, G: Gate, R: Threads + Wait + Sync>(
    rt: &R,
    gate: &G,
    play: &Play<'_, A>,
    lender: &mut Lender<Run<A>>,
    net: &mut Port<A::Mail, A::Order>,
    shells: &mut Vec<Shell<A>>,
) -> Rounds
    requires workers { (1 ≤ play.now.workers) × (play.now.workers ≤ 16) }
    requires crew { IsCrew net.old shells.old.items }
    requires lender { IsLenderOf play.now.desk.now lender.old }
    ensures later { IfKept play.now.way (Some result)
        (AreLater net.old net.new shells.old.items shells.new.items) }
    ensures end { IsEnd result net.new shells.old.items shells.new.items (crew_numbers shells.old.items)
        play.now.limit }
{
    let end = played(rt, gate, play, lender, net, shells);
    let _ = play.desk.close(rt);
    end
}

// Plays rounds or phases until they end, with helpers, fewer than there are workers.
fn helped<A: Actor, G: Gate, R: Threads + Wait + Sync>(
    rt: &R,
    gate: &G,
    play: &Play<'_, A>,
    helpers: &mut Vec<Helper<Run<A>>>,
    lender: &mut Lender<Run<A>>,
    net: &mut Port<A::Mail, A::Order>,
    shells: &mut Vec<Shell<A>>,
) -> Rounds
    requires workers { (1 ≤ play.now.workers) × (play.now.workers ≤ 16) }
    requires crew { IsCrew net.old shells.old.items }
    requires lender { IsLenderOf play.now.desk.now lender.old }
    requires few { vec_len helpers.old < play.now.workers }
    requires helpers { All (λ p. IsHelperOf play.now.desk.now p) helpers.old.items }
    ensures later { IfKept play.now.way (Some result)
        (AreLater net.old net.new shells.old.items shells.new.items) }
    ensures end { IsEnd result net.new shells.old.items shells.new.items (crew_numbers shells.old.items)
        play.now.limit }
{
    let desk = play.desk;
    let alloc = play.alloc;
    let mut playing = || -> Rounds
        requires { IsSync R.row × IsSync G.row × (1 ≤ play.now.workers) × (play.now.workers ≤ 16)
            × IsCrew net.now shells.now.items × IsLenderOf play.now.desk.now lender.now }
        ensures { IfKept play.entry.now.way (Some result)
            (AreLater net.entry.now net.exit.now shells.entry.now.items shells.exit.now.items)
            × IsEnd result net.exit.now shells.entry.now.items shells.exit.now.items
            (crew_numbers shells.entry.now.items) play.entry.now.limit }
    { played_out(rt, gate, play, lender, net, shells) };
    let mut helping = ||
        requires { IsSync R.row × IsSync G.row × All (λ p. IsHelperOf desk.now p) helpers.now.items }
    {
        help(
            rt,
            alloc,
            gate,
            desk,
            mem::replace(helpers, Vec::new(alloc)),
        )
    };
    let (_, end) = join_mut(rt, &mut helping, &mut playing);
    end
}

// Returns the number of helpers: one for each run but the caller's. There is none in phases, or
// where the shells take their turns in order from the first round on.
fn hands_for(way: Way, workers: u32, limit: u32, many: usize) -> usize
    requires { 1 ≤ workers }
    ensures { result < workers }
{
    match way {
        Way::Runs if many <= limit as usize => (workers as usize - 1).min(many.saturating_sub(1)),
        _ => 0,
    }
}

/// Plays rounds or phases, by `way`, in which each shell that is not spent takes turns, until
/// nothing is pending for the shells' actors, `limit` deliveries were made, or a row is refused.
/// Returns how many deliveries were made, and why it ended.
///
/// Before each round or phase every shell meets `net`, which is the network's port and makes no
/// row. One in which no turn is refused makes at least one delivery, so there are at most `limit`
/// of them. Where fewer deliveries are left than there are shells, the shells take their turns one
/// after the other. In each phase a shell whose actor is among the shells once has one holder.
/// Where memory runs out, a phase may lose shells, and runs lose none.
#[tactic(auto, using(crate::proofs::HeldShells::one_holder_each))]
pub fn rounds_by<A: Actor, G: Gate, R: Threads + Wait + Sync>(
    rt: &R,
    alloc: Global,
    way: Way,
    net: &mut Port<A::Mail, A::Order>,
    shells: &mut Vec<Shell<A>>,
    workers: u32,
    limit: u32,
    gate: &G,
) -> Rounds
    requires workers { (1 ≤ workers) × (workers ≤ 16) }
    requires crew { IsCrew net.old shells.old.items }
    ensures later { IfKept way (Some result)
        (AreLater net.old net.new shells.old.items shells.new.items) }
    ensures end { IsEnd result net.new shells.old.items shells.new.items (crew_numbers shells.old.items)
        limit }
    ensures holders { PhasesHaveOneHolder shells.old.items }
{
    let hands = hands_for(way, workers, limit, shells.len());
    let Ok((desk, mut lender, mut helpers)) = open(alloc, MOST_LOANS, hands) else {
        return Rounds::OutOfMemory;
    };
    let lender = &mut lender;
    let play = Play {
        alloc,
        way,
        workers,
        limit,
        desk: &desk,
    };
    if helpers.is_empty() {
        return played(rt, gate, &play, lender, net, shells);
    }
    helped(rt, gate, &play, &mut helpers, lender, net, shells)
}

/// Plays rounds in which each shell that is not spent takes a turn, runs of neighbours at the same
/// time, until nothing is pending for the shells' actors, `limit` deliveries were made, or a row is
/// refused. Returns how many deliveries were made, and why it ended.
///
/// There are at most `workers` runs. For each run but one a thread is kept until the end, where one
/// can be started, which sleeps while nothing is lent to it. Where mail waits in two runs or more,
/// the caller takes the first of them and lends the others, and takes back what nobody has begun,
/// so a run waits for another only where it cannot be lent. No shell is lost.
///
/// The clauses say that each shell is kept, and what its turns were. How many runs there are and
/// how many threads help, the clauses of `play_round` and `helped` say. No clause says by which
/// thread a run takes its turns, or that any does so at the same time as another.
pub fn rounds<A: Actor, G: Gate, R: Threads + Wait + Sync>(
    rt: &R,
    alloc: Global,
    net: &mut Port<A::Mail, A::Order>,
    shells: &mut Vec<Shell<A>>,
    workers: u32,
    limit: u32,
    gate: &G,
) -> Rounds
    requires workers { (1 ≤ workers) × (workers ≤ 16) }
    requires crew { IsCrew net.old shells.old.items }
    ensures later { AreLater net.old net.new shells.old.items shells.new.items }
    ensures end { IsEnd result net.new shells.old.items shells.new.items (crew_numbers shells.old.items)
        limit }
{
    rounds_by(rt, alloc, Way::Runs, net, shells, workers, limit, gate)
}
