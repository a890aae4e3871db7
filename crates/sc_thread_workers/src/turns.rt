//! Turns of many shells.
ghost use Rattle.std.specs.Prelude.{◌≡◌, ◌<◌, ◌≤◌, ◌+◌, ◌*◌, ◌%◌, ◌^◌, ◌⊎◌, true, false, length, sum_by, None, IfSome};
ghost use Rattle.std.specs.List.{list_any};
ghost use Rattle.sc_thread_ports.specs.exchange.Ports.{made};
ghost use Rattle.sc_thread_workers.specs.Crews.{Took, TookRow, Passed, Sound, AllTook, AllPassed, AllSound, HasRefusal, rows_made, did, refusal, is_did, refusal_in};
ghost use Rattle.sc_thread_work.specs.shell.Shells.{port_of};
ghost use Rattle.sc_thread_work.specs.declared.shell.turns.Turn.{Turn};

use sc_actor::{Actor, Gate};
use sc_thread_work::{Shell, Turn};
use std::alloc::Global;
use std::sync::Wait;

/// Lets the shell take a turn, unless it is spent. Returns whether a row was made.
pub(crate) fn made_row<A: Actor, G: Gate, R: Wait>(
    rt: &R,
    alloc: Global,
    gate: &G,
    shell: &mut Shell<A>,
) -> bool
    ensures took { Took shell.old shell.new }
    ensures row { result ≡ true → TookRow shell.old shell.new }
    ensures none { result ≡ false → made (port_of shell.new) ≡ made (port_of shell.old) }
{
    if shell.is_spent() {
        return false;
    }
    let answer = shell.turn(rt, alloc, 1, gate);
    is_did(Some(answer))
}

fn one<A: Actor, G: Gate, R: Wait>(rt: &R, alloc: Global, gate: &G, shell: &mut Shell<A>)
    ensures { Took shell.old shell.new }
{
    let _ = made_row(rt, alloc, gate, shell);
}

/// Lets each shell take a turn, one after the other.
pub(crate) fn turns<A: Actor, G: Gate, R: Wait>(
    rt: &R,
    alloc: Global,
    gate: &G,
    part: &mut [Shell<A>],
)
    ensures { AllTook part.old part.new }
{
    for shell in part.iter_mut() {
        one(rt, alloc, gate, shell);
    }
}

/// Returns whether one of the flags is set.
pub(crate) fn any_of(waits: &[bool]) -> bool
    ensures { result ≡ list_any (λ wait. wait) waits.now }
{
    waits.iter().any(|wait| *wait)
}

fn is_did(last: Option<Turn>) -> bool
    ensures { result ≡ is_did last }
{
    match last {
        Some(Turn::Did { at: _ }) => true,
        _ => false,
    }
}

fn refusal_in(last: Option<Turn>) -> Turn
    ensures { result ≡ refusal_in last }
{
    match last {
        Some(Turn::Full { bytes }) => Turn::Full { bytes },
        _ => Turn::OutOfMemory,
    }
}

// Returns 1 where the shell's last turn made a row, and else 0.
fn did_of<A: Actor>(shell: &Shell<A>) -> u32
    ensures { result ≡ did shell.now }
{
    if !shell.has_crashed() && is_did(shell.last()) {
        1
    } else {
        0
    }
}

// Returns the refusal of the shell, where it is spent and has not crashed.
fn refusal_of<A: Actor>(shell: &Shell<A>) -> Option<Turn>
    ensures { result ≡ refusal shell.now }
{
    if shell.is_spent() && !shell.has_crashed() {
        Some(refusal_in(shell.last()))
    } else {
        None
    }
}

/// Returns how many of the shells made a row in their last turn.
pub(crate) fn did_in<A: Actor>(shells: &[Shell<A>]) -> u32
    requires { length shells.now < 2 ^ 32 }
    ensures did { result ≡ sum_by did shells.now }
    ensures most { result ≤ length shells.now }
{
    let mut did = 0u32;
    for shell in shells {
        did += did_of(shell);
    }
    did
}

/// Returns the refusal of one of the shells, if any was refused.
pub(crate) fn refused_in<A: Actor>(shells: &[Shell<A>]) -> Option<Turn>
    ensures some { IfSome result (λ r. HasRefusal shells.now r) }
    ensures none { result ≡ None → AllSound shells.now }
{
    for shell in shells {
        if let Some(refusal) = refusal_of(shell) {
            return Some(refusal);
        }
    }
    None
}

// How far turns one after the other have come: the deliveries made, and whether a turn was refused.
#[derive(Clone, Copy, Debug, PartialEq, Eq)]
struct Progress {
    did: u32,
    stopped: bool,
}

/// Lets the shells take their turns one after the other, until `most` deliveries were made or a
/// turn is refused. Returns the number of deliveries made.
pub(crate) fn in_order<A: Actor, G: Gate, R: Wait>(
    rt: &R,
    alloc: Global,
    gate: &G,
    shells: &mut [Shell<A>],
    most: u32,
) -> u32
    requires { AllSound shells.old }
    ensures most { result ≤ most }
    ensures passed { AllPassed shells.old shells.new }
    ensures did { rows_made shells.new ≡ rows_made shells.old + result }
    ensures whole { result ≡ 0 → 0 < most → AllSound shells.new → AllTook shells.old shells.new }
    ensures short { (refused : Turn) → HasRefusal shells.new refused → result < most }
{
    let mut so_far = Progress {
        did: 0,
        stopped: false,
    };
    for shell in shells.iter_mut() {
        so_far = next_in_order(rt, alloc, gate, shell, most, so_far);
    }
    so_far.did
}

fn next_in_order<A: Actor, G: Gate, R: Wait>(
    rt: &R,
    alloc: Global,
    gate: &G,
    shell: &mut Shell<A>,
    most: u32,
    so_far: Progress,
) -> Progress
    requires most { so_far.did ≤ most }
    requires sound { Sound shell.old }
    ensures most { result.did ≤ most }
    ensures passed { Passed shell.old shell.new }
    ensures did { length (made shell.new.port) + so_far.did
        ≡ length (made shell.old.port) + result.did }
    ensures more { so_far.did ≤ result.did }
    ensures took { so_far.did < most → so_far.stopped ≡ false → Took shell.old shell.new }
    ensures stays { so_far.stopped ≡ true → result ≡ so_far }
    ensures stops { so_far.stopped ≡ false → result.stopped ≡ true →
        ¬ Sound shell.new × (result.did < most) }
    ensures goes { result.stopped ≡ false → Sound shell.new }
{
    if so_far.did == most || so_far.stopped {
        return so_far;
    }
    one(rt, alloc, gate, shell);
    Progress {
        did: so_far.did + did_of(shell),
        stopped: refusal_of(shell).is_some(),
    }
}
