//! Runs of shells that work at the same time, lent to threads which stay alive.
ghost use Rattle.std.specs.Prelude.{◌≡◌, ◌<◌, ◌≤◌, ◌+◌, ◌*◌, ◌++◌, ℕ, All, length, vec_len, vec_capacity};
ghost use Rattle.sc_thread_work.specs.lend.Lending.{IsLonger};
ghost use Rattle.sc_thread_work.specs.lend.Offices.{IsHelperOf, IsLenderOf, lent_by};
ghost use Rattle.sc_thread_workers.specs.Crews.{AllTook};
ghost use Rattle.sc_thread_workers.specs.Runs.{IsSent, RunTook};

use crate::turns::{any_of, turns};
use sc_actor::{Actor, Gate};
use sc_thread_work::{Helper, Labour, Lender, Office, Shell, help_all};
use std::alloc::Global;
use std::sync::Wait;
use std::thread::Threads;

/// A run: neighbours among the shells, which take their turns one after the other.
#[derive(Drop)]
pub(crate) struct Run<A: Actor> {
    pub(crate) shells: Vec<Shell<A>>,
}

impl<A: Actor> Labour for Run<A> {
    ghost use Rattle.sc_thread_workers.specs.Runs.{RunTook};

    ghost leaves = { RunTook };
}

// Where a run is that was sent off: lent under a number, or here, where it has taken its turns.
#[derive(Drop)]
pub(crate) enum Sent<A: Actor> {
    Lent(u64),
    Here(Run<A>),
}

// Lets each shell of a vector take a turn.
fn turns_of<A: Actor, G: Gate, R: Wait>(rt: &R, alloc: Global, gate: &G, shells: &mut Vec<Shell<A>>)
    ensures len { length shells.new.items ≡ length shells.old.items }
    ensures capacity { vec_capacity shells.new ≡ vec_capacity shells.old }
    ensures took { AllTook shells.old.items shells.new.items }
{
    let all = shells.as_mut_slice();
    turns(rt, alloc, gate, all);
}

// Lets each shell of a run take a turn.
fn run_turns<A: Actor, G: Gate, R: Wait>(rt: &R, alloc: Global, gate: &G, run: Run<A>) -> Run<A>
    ensures { RunTook run result }
{
    let Run { mut shells } = run;
    turns_of(rt, alloc, gate, &mut shells);
    Run { shells }
}

// Lends a run that has mail, or lets its shells take their turns here where it has none or cannot
// be lent.
fn send<A: Actor, G: Gate, R: Wait>(
    rt: &R,
    alloc: Global,
    gate: &G,
    desk: &Office<Run<A>>,
    lender: &mut Lender<Run<A>>,
    has_mail: bool,
    run: Run<A>,
) -> Sent<A>
    requires lender { IsLenderOf desk.now lender.old }
    ensures lender { IsLenderOf desk.now lender.new }
    ensures later { IsLonger (lent_by lender.old) (lent_by lender.new) }
    ensures sent { IsSent (lent_by lender.new) run result }
    ensures few { length (lent_by lender.new) ≤ length (lent_by lender.old) + 1 }
{
    if !has_mail {
        return Sent::Here(run_turns(rt, alloc, gate, run));
    }
    match desk.lend(rt, lender, run) {
        Ok(number) => Sent::Lent(number),
        Err(back) => Sent::Here(run_turns(rt, alloc, gate, back)),
    }
}

// Returns a run that was sent off, once its shells have taken their turns.
fn fetch<A: Actor, G: Gate, R: Wait>(
    rt: &R,
    alloc: Global,
    gate: &G,
    desk: &Office<Run<A>>,
    lender: &mut Lender<Run<A>>,
    sent: Sent<A>,
) -> Run<A>
    requires lender { IsLenderOf desk.now lender.old }
    ensures lender { IsLenderOf desk.now lender.new }
    ensures same { lent_by lender.new ≡ lent_by lender.old }
    ensures back { (run : _) → IsSent (lent_by lender.old) run sent → RunTook run result }
{
    match sent {
        Sent::Here(run) => run,
        Sent::Lent(number) => desk.collect(
            rt,
            &|run: Run<A>| -> Run<A>
                ensures { RunTook run result }
            { run_turns(rt, alloc, gate, run) },
            lender,
            number,
        ),
    }
}

// Appends the shells of a run to the others. There is room, since they were cut off from the same
// vector.
fn join<A: Actor>(shells: &mut Vec<Shell<A>>, run: Run<A>)
    requires fits { vec_len shells.old + vec_len run.shells ≤ vec_capacity shells.old }
    ensures items { shells.new.items ≡ shells.old.items ++ run.shells.items }
    ensures capacity { vec_capacity shells.old ≤ vec_capacity shells.new }
{
    let Run { shells: mut more } = run;
    match shells.append(&mut more) {
        Ok(()) => {}
        Err(_) => unreachable!(),
    }
}

// Returns the place of the first shell of the last run, where `many` shells are divided into runs
// of `size`; 0 where there is one run.
fn last_start(many: usize, size: usize) -> usize
    requires { 0 < size }
    ensures inside { result ≤ many }
    ensures less { 0 < result → result < many }
    ensures fewer { (k : ℕ) → many ≤ size * (k + 1) → result ≤ size * k }
{
    let past = many % size;
    let last = if past == 0 { size } else { past };
    many.saturating_sub(last)
}

// Returns whether mail waits for one of `many` shells, from the place `from` on.
fn mail_in(waits: &[bool], from: usize, many: usize) -> bool {
    waits.iter().skip(from).take(many).any(|wait| *wait)
}

// Lets each shell take a turn. From the last run on, runs with mail are lent while mail waits
// before them. The first run with mail takes its turns here, after those before it; then so do lent
// runs that nobody has begun. Where there is no memory to cut a run off, the shells take their
// turns here.
fn apart<A: Actor, G: Gate, R: Wait>(
    rt: &R,
    alloc: Global,
    gate: &G,
    desk: &Office<Run<A>>,
    lender: &mut Lender<Run<A>>,
    waits: &[bool],
    size: usize,
    shells: &mut Vec<Shell<A>>,
)
    requires size { 0 < size }
    requires lender { IsLenderOf desk.now lender.old }
    ensures lender { IsLenderOf desk.now lender.new }
    ensures later { IsLonger (lent_by lender.old) (lent_by lender.new) }
    ensures len { length shells.new.items ≡ length shells.old.items }
    ensures capacity { vec_capacity shells.old ≤ vec_capacity shells.new }
    ensures took { AllTook shells.old.items shells.new.items }
    ensures few { (k : ℕ) → length shells.old.items ≤ size * (k + 1) →
        length (lent_by lender.new) ≤ length (lent_by lender.old) + k }
{
    let cut = last_start(shells.len(), size);
    if cut == 0 || !mail_in(waits, 0, cut) {
        turns_of(rt, alloc, gate, shells);
        return;
    }
    let Ok(last) = shells.split_off(cut) else {
        turns_of(rt, alloc, gate, shells);
        return;
    };
    let has_mail = mail_in(waits, cut, size);
    let sent = send(
        rt,
        alloc,
        gate,
        desk,
        lender,
        has_mail,
        Run { shells: last },
    );
    apart(rt, alloc, gate, desk, lender, waits, size, shells);
    let run = fetch(rt, alloc, gate, desk, lender, sent);
    join(shells, run);
}

// Returns in how many runs of `size` shells mail waits.
fn busy_runs(waits: &[bool], size: usize) -> usize
    requires { 0 < size }
{
    let mut busy = 0usize;
    for run in waits.chunks(size) {
        if any_of(run) {
            busy = busy.saturating_add(1);
        }
    }
    busy
}

/// Lets each shell take a turn, runs of `size` neighbours at the same time. `waits` says for which
/// of the shells mail waits. Fewer runs are lent than there are.
///
/// No run with mail waits for another with mail where there are enough helpers: the first takes its
/// turns here, and the others are lent. Lent runs that nobody has begun when the first is done take
/// their turns here too. Where mail waits in one run only, nothing is lent.
pub(crate) fn at_once<A: Actor, G: Gate, R: Wait>(
    rt: &R,
    alloc: Global,
    gate: &G,
    desk: &Office<Run<A>>,
    lender: &mut Lender<Run<A>>,
    waits: &[bool],
    size: usize,
    shells: &mut Vec<Shell<A>>,
)
    requires size { 0 < size }
    requires lender { IsLenderOf desk.now lender.old }
    ensures lender { IsLenderOf desk.now lender.new }
    ensures len { length shells.new.items ≡ length shells.old.items }
    ensures took { AllTook shells.old.items shells.new.items }
    ensures few { (k : ℕ) → length shells.old.items ≤ size * (k + 1) →
        length (lent_by lender.new) ≤ length (lent_by lender.old) + k }
{
    if busy_runs(waits, size) < 2 {
        turns_of(rt, alloc, gate, shells);
    } else {
        apart(rt, alloc, gate, desk, lender, waits, size, shells);
    }
}

/// Runs the helpers, which give lent runs their turns, each in a thread of its own where one can be
/// started, until the desk is closed.
pub(crate) fn help<A: Actor, G: Gate, R: Threads + Wait + Sync>(
    rt: &R,
    alloc: Global,
    gate: &G,
    desk: &Office<Run<A>>,
    helpers: Vec<Helper<Run<A>>>,
)
    requires { All (λ p. IsHelperOf desk.now p) helpers.items }
{
    let _ = help_all(
        rt,
        desk,
        &|run: Run<A>| -> Run<A>
            ensures { RunTook run result }
        { run_turns(rt, alloc, gate, run) },
        helpers,
    );
}
