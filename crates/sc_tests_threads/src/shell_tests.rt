//! The shells of two actors that send each other notes.
ghost use Rattle.std.specs.Prelude.{◌≤◌, ◌^◌};

use crate::notes::Note;
use crate::players::{Counter, Player};
use sc_actor::Event;
use sc_thread_ports::Port;
use sc_thread_work::{Shell, Turn};
use std::alloc::Global;
use std::mem::forget;
use std::process::Abort;
use std::sync::Wait;
use std::sync::atomic::{AtomicU64, Ordering};

// A call of a shell.
#[derive(Clone, Copy)]
enum Act {
    Turn,
    Go,
    Tick,
    Crash,
}

fn acted<R: Wait>(
    rt: &R,
    alloc: Global,
    shell: &mut Shell<Player>,
    gate: &Counter,
    act: Act,
) -> Turn {
    match act {
        Act::Turn => shell.turn(rt, alloc, 1, gate),
        Act::Go => shell.event(rt, alloc, Event::Go),
        Act::Tick => shell.event(rt, alloc, Event::Tick),
        Act::Crash => shell.event(rt, alloc, Event::Crash),
    }
}

// An actor's number, a call of its shell, the shell's answer, and the first mail that is pending
// for the second actor then.
type Step = (u32, Act, Turn, Option<u32>);

// Returns whether a shell gives this answer, and keeps it as its last.
fn is_turn<R: Wait>(
    rt: &R,
    alloc: Global,
    shell: &mut Shell<Player>,
    gate: &Counter,
    step: Step,
) -> bool {
    let turn = acted(rt, alloc, shell, gate, step.1);
    turn == step.2 && shell.last() == Some(turn)
}

fn is_step<R: Wait>(
    rt: &R,
    alloc: Global,
    one: &mut Shell<Player>,
    two: &mut Shell<Player>,
    gate: &Counter,
    step: Step,
) -> bool {
    let is_so = if step.0 == 1 {
        is_turn(rt, alloc, one, gate, step)
    } else {
        is_turn(rt, alloc, two, gate, step)
    };
    is_so && two.waiting(rt) == step.3
}

// Whether the first shell is spent, whether each has crashed, and how often the gate was passed.
type End = (bool, bool, bool, u64);

fn after<R: Wait + Abort>(
    rt: &R,
    alloc: Global,
    one: &mut Shell<Player>,
    two: &mut Shell<Player>,
    steps: &[Step],
) -> End {
    let gate = Counter {
        passes: AtomicU64::new(0),
    };
    assert!(rt; one.who() == 1 && one.last().is_none());
    for step in steps {
        assert!(rt; is_step(rt, alloc, one, two, &gate, *step));
    }
    let passes = gate.passes.load(Ordering::SeqCst);
    (one.is_spent(), one.has_crashed(), two.has_crashed(), passes)
}

// Returns the end of a story with a limit of counted bytes. The second actor is out of memory where
// it has `starves` notes left.
fn left_after<R: Wait + Abort>(
    rt: &R,
    alloc: Global,
    limit: u64,
    starves: u32,
    steps: &[Step],
) -> End
    requires { limit ≤ 2 ^ 30 }
{
    let first = Player {
        other: 2,
        left: 4,
        starves: 0,
    };
    let second = Player {
        other: 1,
        left: 4,
        starves,
    };
    let mut net: Port<Note, u32> = Port::start(alloc, 2, limit).expect(rt, "memory");
    let mut one = Shell::new(first, net.split(1).expect(rt, "memory"));
    let mut two = Shell::new(second, net.split(2).expect(rt, "memory"));
    let end = after(rt, alloc, &mut one, &mut two, steps);
    forget(one);
    forget(two);
    forget(net);
    end
}

const TURNS: &[Step] = &[
    (1, Act::Turn, Turn::Empty { seen: 0 }, None),
    (1, Act::Go, Turn::Did { at: 1 }, Some(1)),
    (2, Act::Turn, Turn::Did { at: 2 }, None),
    (1, Act::Turn, Turn::Did { at: 3 }, Some(3)),
];

#[test]
fn shells_take_turns_and_pass_the_gate(rt: HostRuntime) {
    let end = left_after(&rt, rt.alloc(), 1280, 0, TURNS);
    assert!(rt; end == (false, false, false, 2));
}

const CRASHED: &[Step] = &[
    (1, Act::Crash, Turn::Did { at: 1 }, None),
    (1, Act::Turn, Turn::Spent, None),
];

#[test]
fn a_shell_that_crashed_is_spent(rt: HostRuntime) {
    let end = left_after(&rt, rt.alloc(), 1280, 0, CRASHED);
    assert!(rt; end == (true, true, false, 0));
}

const STARVED: &[Step] = &[
    (2, Act::Tick, Turn::OutOfMemory, None),
    (2, Act::Tick, Turn::Spent, None),
];

#[test]
fn a_shell_without_memory_is_spent(rt: HostRuntime) {
    let end = left_after(&rt, rt.alloc(), 1280, 4, STARVED);
    assert!(rt; end == (false, false, false, 0));
}

const FULL: &[Step] = &[
    (1, Act::Tick, Turn::Did { at: 1 }, Some(1)),
    (1, Act::Tick, Turn::Full { bytes: 320 }, Some(1)),
    (1, Act::Tick, Turn::Spent, Some(1)),
];

#[test]
fn a_shell_whose_row_is_refused_is_spent(rt: HostRuntime) {
    let end = left_after(&rt, rt.alloc(), 400, 0, FULL);
    assert!(rt; end == (true, false, false, 0));
}
