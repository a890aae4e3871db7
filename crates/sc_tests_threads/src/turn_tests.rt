//! Threads that append notes to one log.
ghost use Rattle.std.specs.Prelude.{◌≡◌, ◌++◌, ◌∷◌, [], ◌+◌, ◌<◌, false, map};
ghost use Rattle.std.specs.Thread.{IsSync};
ghost use Rattle.sc_thread_ports.specs.turn.Seats.{known, OfOneStart};
ghost use Rattle.sc_tests_threads.specs.Seated.{IsIdle};

use crate::watches::watch;
use sc_thread_ports::{Listed, TurnSeat};
use std::alloc::Global;
use std::mem::forget;
use std::process::Abort;
use std::sync::Wait;
use std::sync::atomic::{AtomicU64, Ordering};
use std::thread::{Threads, join, yield_now};
use std::time::Clock;

// Values, each with the number of its maker.
#[derive(Drop)]
struct Log {
    entries: Vec<(u8, u32)>,
}

impl Listed for Log {
    type Entry = u8;

    ghost entries = { λ l. l.entries.items };

    fn count(&self) -> u64 {
        self.entries.len() as u64
    }
}

impl Log {
    fn new(alloc: Global) -> Log
        ensures { result.entries.items ≡ [] }
    {
        Log {
            entries: Vec::new(alloc),
        }
    }
}

fn add<R: Wait + Abort>(rt: &R, seat: &mut TurnSeat<Log>, who: u32, value: u8)
    requires { IsIdle seat.old who }
    ensures { OfOneStart seat.old seat.new
        × IsIdle seat.new who
        × ((known seat.new).given ≡ (known seat.old).given)
        × ((known seat.new).joined ≡ (known seat.old).joined) }
{
    let mut log = seat.enter(rt);
    log.entries.reserve(1).expect(rt, "memory");
    log.entries.push_reserved((value, who));
    seat.leave(log);
}

fn add_three<R: Wait + Abort>(rt: &R, seat: &mut TurnSeat<Log>, who: u32)
    requires { IsIdle seat.old who }
    ensures { OfOneStart seat.old seat.new × IsIdle seat.new who }
{
    add(rt, seat, who, 1);
    add(rt, seat, who, 2);
    add(rt, seat, who, 3);
}

// How far two threads are: 0 at first, 1 once one of them has the turn, 2 once the other tries to
// get it.
#[derive(Drop)]
struct Stage {
    reached: AtomicU64,
}

// Waits until the stage is reached, or for very long.
fn await_stage(stage: &Stage, number: u64) {
    for i in 0..10_000_000 {
        let _ = i;
        if stage.reached.load(Ordering::SeqCst) >= number {
            return;
        }
        yield_now();
    }
}

// Takes so long that a thread that tries to get the turn is asleep by then.
fn linger(stage: &Stage) {
    for i in 0..20_000_000 {
        let _ = i;
        if stage.reached.load(Ordering::SeqCst) > 2 {
            return;
        }
    }
}

// Takes the turn, and gives it back when the other seat sleeps. After that it does nothing.
fn hold_long<R: Wait>(rt: &R, stage: &Stage, seat: &mut TurnSeat<Log>, who: u32)
    requires { IsIdle seat.old who }
    ensures { OfOneStart seat.old seat.new × IsIdle seat.new who }
{
    let log = seat.enter(rt);
    stage.reached.store(1, Ordering::SeqCst);
    await_stage(stage, 2);
    linger(stage);
    seat.leave(log);
}

// Tries to get the turn while the other seat has it.
fn come_late<R: Wait + Abort>(rt: &R, stage: &Stage, seat: &mut TurnSeat<Log>, who: u32)
    requires { IsIdle seat.old who }
    ensures { OfOneStart seat.old seat.new × IsIdle seat.new who }
{
    await_stage(stage, 1);
    stage.reached.store(2, Ordering::SeqCst);
    add(rt, seat, who, 2);
}

// What a seat does.
#[derive(Clone, Copy)]
enum Part {
    AddThree,
    HoldLong,
    ComeLate,
}

fn play<R: Wait + Abort>(rt: &R, stage: &Stage, seat: &mut TurnSeat<Log>, who: u32, part: Part)
    requires { IsIdle seat.old who }
    ensures { OfOneStart seat.old seat.new × IsIdle seat.new who }
{
    match part {
        Part::AddThree => add_three(rt, seat, who),
        Part::HoldLong => hold_long(rt, stage, seat, who),
        Part::ComeLate => come_late(rt, stage, seat, who),
    }
}

fn played<R: Wait + Abort>(
    rt: &R,
    stage: &Stage,
    mut seat: TurnSeat<Log>,
    who: u32,
    part: Part,
) -> TurnSeat<Log>
    requires { IsIdle seat who }
    ensures { OfOneStart seat result × IsIdle result who }
{
    play(rt, stage, &mut seat, who, part);
    seat
}

// Lets two seats play their parts at the same time.
fn by_two<R: Threads + Wait + Abort + Sync>(
    rt: &R,
    one: TurnSeat<Log>,
    other: TurnSeat<Log>,
    first: u32,
    parts: (Part, Part),
) -> (TurnSeat<Log>, TurnSeat<Log>)
    requires one { IsIdle one first }
    requires other { IsIdle other (first + 1) }
    requires small { first < 9 }
    ensures { OfOneStart one result.0
        × OfOneStart other result.1
        × IsIdle result.0 first
        × IsIdle result.1 (first + 1) }
{
    let second = first + 1;
    let (mine, theirs) = parts;
    let stage = Stage {
        reached: AtomicU64::new(0),
    };
    join(
        rt,
        || -> TurnSeat<Log>
            requires { IsIdle one first }
            ensures { OfOneStart one result × IsIdle result first }
        { played(rt, &stage, one, first, mine) },
        || -> TurnSeat<Log>
            requires { IsIdle other second }
            ensures { OfOneStart other result × IsIdle result second }
        { played(rt, &stage, other, second, theirs) },
    )
}

const ADD: (Part, Part) = (Part::AddThree, Part::AddThree);

fn take_in(net: &mut TurnSeat<Log>, other: TurnSeat<Log>)
    requires { IsIdle net.old 0 × OfOneStart net.old other × ((known other).turn ≡ false) }
    ensures { OfOneStart net.old net.new
        × IsIdle net.new 0
        × ((known net.new).given ≡ (known net.old).given)
        × (map (λ k. k.0) (known net.new).joined
        ≡ map (λ k. k.0) (known net.old).joined ++ (known other).who ∷ []) }
{
    net.join(other);
}

// Returns each entry's value and maker, as the digits of one number.
fn all_digits(entries: &[(u8, u32)]) -> u64 {
    let mut digits = 0u64;
    for entry in entries {
        digits = digits.wrapping_mul(100).wrapping_add(entry.0 as u64);
        digits = digits.wrapping_mul(10).wrapping_add(entry.1 as u64);
    }
    digits
}

// Returns the values made under one number, in their order, as the digits of one number.
fn digits_of(entries: &[(u8, u32)], who: u32) -> u32 {
    let mut digits = 0u32;
    for entry in entries {
        if entry.1 == who {
            digits = digits.wrapping_mul(10).wrapping_add(entry.0 as u32);
        }
    }
    digits
}

// Returns the number of entries of a log, and those made under the numbers 1 to 4.
fn counted(log: &Log) -> (usize, [u32; 4]) {
    let entries = log.entries.as_slice();
    let digits = [
        digits_of(entries, 1),
        digits_of(entries, 2),
        digits_of(entries, 3),
        digits_of(entries, 4),
    ];
    (entries.len(), digits)
}

fn two_write<R: Threads + Wait + Abort + Sync>(rt: &R, alloc: Global, parts: (Part, Part)) -> Log {
    let mut net = TurnSeat::start(alloc, Log::new(alloc)).expect(rt, "memory");
    let one = net.split(1).expect(rt, "memory");
    let two = net.split(2).expect(rt, "memory");
    let (one, two) = by_two(rt, one, two, 1, parts);
    take_in(&mut net, one);
    take_in(&mut net, two);
    net.close(rt)
}

#[test]
fn two_threads_append_through_one_turn(rt: HostRuntime) {
    let log = two_write(&rt, rt.alloc(), ADD);
    let counts = counted(&log);
    forget(log);
    assert!(rt; counts == (6, [123, 123, 0, 0]));
}

// Lets four seats append in four threads.
fn by_four<R: Threads + Wait + Abort + Sync>(
    rt: &R,
    first: (TurnSeat<Log>, TurnSeat<Log>),
    last: (TurnSeat<Log>, TurnSeat<Log>),
) -> (
    (TurnSeat<Log>, TurnSeat<Log>),
    (TurnSeat<Log>, TurnSeat<Log>),
)
    requires { IsIdle first.0 1 × IsIdle first.1 2 × IsIdle last.0 3 × IsIdle last.1 4 }
    ensures first { OfOneStart first.0 result.0.0
        × OfOneStart first.1 result.0.1
        × IsIdle result.0.0 1
        × IsIdle result.0.1 2 }
    ensures last { OfOneStart last.0 result.1.0
        × OfOneStart last.1 result.1.1
        × IsIdle result.1.0 3
        × IsIdle result.1.1 4 }
{
    let (one, two) = first;
    let (three, four) = last;
    join(
        rt,
        || -> (TurnSeat<Log>, TurnSeat<Log>)
            requires { IsSync R.row × IsIdle one 1 × IsIdle two 2 }
            ensures { OfOneStart one result.0
                × OfOneStart two result.1
                × IsIdle result.0 1
                × IsIdle result.1 2 }
        { by_two(rt, one, two, 1, ADD) },
        || -> (TurnSeat<Log>, TurnSeat<Log>)
            requires { IsSync R.row × IsIdle three 3 × IsIdle four 4 }
            ensures { OfOneStart three result.0
                × OfOneStart four result.1
                × IsIdle result.0 3
                × IsIdle result.1 4 }
        { by_two(rt, three, four, 3, ADD) },
    )
}

fn four_write<R: Threads + Wait + Abort + Sync>(rt: &R, alloc: Global) -> Log {
    let mut net = TurnSeat::start(alloc, Log::new(alloc)).expect(rt, "memory");
    let one = net.split(1).expect(rt, "memory");
    let two = net.split(2).expect(rt, "memory");
    let three = net.split(3).expect(rt, "memory");
    let four = net.split(4).expect(rt, "memory");
    let ((one, two), (three, four)) = by_four(rt, (one, two), (three, four));
    take_in(&mut net, one);
    take_in(&mut net, two);
    take_in(&mut net, three);
    take_in(&mut net, four);
    net.close(rt)
}

#[test]
fn four_threads_append_through_one_turn(rt: HostRuntime) {
    let log = four_write(&rt, rt.alloc());
    let counts = counted(&log);
    forget(log);
    assert!(rt; counts == (12, [123, 123, 123, 123]));
}

// Lets two seats of one thread meet between their entries.
fn meet_and_write<R: Wait + Abort>(rt: &R, alloc: Global) -> Log {
    let mut net = TurnSeat::start(alloc, Log::new(alloc)).expect(rt, "memory");
    let mut one = net.split(1).expect(rt, "memory");
    add(rt, &mut one, 1, 10);
    add(rt, &mut net, 0, 20);
    net.meet(rt, &mut one).expect(rt, "memory");
    add(rt, &mut one, 1, 30);
    take_in(&mut net, one);
    add(rt, &mut net, 0, 40);
    net.close(rt)
}

#[test]
fn seats_of_one_thread_meet_and_join(rt: HostRuntime) {
    let log = meet_and_write(&rt, rt.alloc());
    let digits = all_digits(log.entries.as_slice());
    forget(log);
    assert!(rt; digits == 101_200_301_400);
}

// Lets a seat give the turn back while the other sleeps; the other has to wake within the time.
fn woken<R: Threads + Wait + Abort + Clock + Sync>(rt: &R, alloc: Global) -> Log {
    let ended = AtomicU64::new(0);
    let (_, log) = join(
        rt,
        || watch(rt, &ended, "the seat that sleeps was not woken"),
        || -> Log
            requires { IsSync R.row }
        {
            let log = two_write(rt, alloc, (Part::HoldLong, Part::ComeLate));
            ended.store(1, Ordering::SeqCst);
            log
        },
    );
    log
}

// Shows that `leave` wakes the seat that sleeps. Where it is not woken, this test fails after 20
// seconds.
#[test]
fn leaving_wakes_the_seat_that_sleeps(rt: HostRuntime) {
    let log = woken(&rt, rt.alloc());
    let counts = counted(&log);
    forget(log);
    assert!(rt; counts == (1, [0, 2, 0, 0]));
}
