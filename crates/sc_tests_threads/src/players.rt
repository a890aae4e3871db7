//! Actors that send each other notes, and the gates that hold them.
ghost use Rattle.std.specs.Prelude.{◌≡◌, ◌<◌, ◌≤◌, ◌-◌, [], ◌∷◌, if◌then◌else◌, ◌==◌, true, All};
ghost use Rattle.sc_actor.specs.System.{are_apart};
ghost use Rattle.sc_thread_ports.specs.exchange.Ports.{Stays};
ghost use Rattle.sc_thread_work.specs.shell.Shells.{port_of};
ghost use Rattle.sc_thread_workers.specs.Crews.{AllOf, AllSound, Sound, crew_numbers};

use crate::notes::Note;
use sc_actor::{Actor, Event, Gate, Input, Seat};
use sc_base::{OutOfMemory, Sequence};
use sc_thread_ports::Port;
use sc_thread_work::Shell;
use std::alloc::Global;
use std::process::Abort;
use std::sync::Wait;
use std::sync::atomic::{AtomicU64, Ordering};
use std::thread;

// An actor that sends a note to another at each input while it has notes left. It is out of memory
// when it has `starves` left.
#[derive(Drop)]
pub(crate) struct Player {
    pub(crate) other: u32,
    pub(crate) left: u32,
    pub(crate) starves: u32,
}

impl Actor for Player {
    type Mail = Note;

    type Order = u32;

    ghost table = { λ player _.
        if player.left == 0 then (player, []) else (
          record { other = player.other; left = player.left - 1; starves = player.starves },
          (record { to = player.other; size = 0 })
              ∷ [],
        ) };

    fn step(
        &mut self,
        alloc: Global,
        _input: &Input<Note, u32>,
    ) -> Result<Sequence<Note>, OutOfMemory> {
        if self.left > 0 && self.left == self.starves {
            return Err(OutOfMemory);
        }
        let mut sent = Sequence::new(alloc);
        if self.left > 0 {
            self.left -= 1;
            sent.push(Note {
                to: self.other,
                size: 0,
            })?;
        }
        Ok(sent)
    }
}

pub(crate) struct Open;

impl Gate for Open {
    fn pass(&self, _who: u32) {}
}

// A gate that holds two actors, each until the other has come, for at most `turns` turns of
// waiting.
#[derive(Drop)]
pub(crate) struct Pair {
    pub(crate) turns: u32,
    pub(crate) come: AtomicU64,
    pub(crate) late: AtomicU64,
}

impl Gate for Pair {
    fn pass(&self, _who: u32) {
        self.come.fetch_add(1, Ordering::SeqCst);
        for i in 0..self.turns {
            let _ = i;
            if self.come.load(Ordering::SeqCst) >= 2 {
                return;
            }
            thread::yield_now();
        }
        self.late.fetch_add(1, Ordering::SeqCst);
    }
}

// A gate that counts how often it is passed.
#[derive(Drop)]
pub(crate) struct Counter {
    pub(crate) passes: AtomicU64,
}

impl Gate for Counter {
    fn pass(&self, _who: u32) {
        self.passes.fetch_add(1, Ordering::SeqCst);
    }
}

// Returns two actors that send each other notes, the second one first in the list: the second has
// four notes, and is out of memory when it has `starves` left; the first has `left`, and sends them
// to `other`.
pub(crate) fn seats(
    rt: &impl Abort,
    alloc: Global,
    other: u32,
    left: u32,
    starves: u32,
) -> Vec<Seat<Player>>
    ensures far { are_apart result.items ≡ true }
    ensures numbered { All (λ seat. (0 < seat.who) × (seat.who ≤ 2)) result.items }
{
    let first = Player {
        other,
        left,
        starves: 0,
    };
    let second = Player {
        other: 1,
        left: 4,
        starves,
    };
    let one = Seat {
        who: 1,
        actor: first,
    };
    let two = Seat {
        who: 2,
        actor: second,
    };
    let mut seats = Vec::new(alloc);
    seats.push(two).expect(rt, "memory");
    seats.push(one).expect(rt, "memory");
    seats
}

fn went<R: Wait + Abort>(rt: &R, alloc: Global, shell: &mut Shell<Player>)
    ensures stays { Stays (port_of shell.old) (port_of shell.new) }
    ensures sound { Sound shell.new }
{
    let _ = shell.event(rt, alloc, Event::Go);
    assert!(rt; !shell.is_spent());
}

// Lets the actor at a place go.
pub(crate) fn go<R: Wait + Abort>(
    rt: &R,
    alloc: Global,
    net: &Port<Note, u32>,
    shells: &mut Vec<Shell<Player>>,
    place: usize,
)
    requires { AllOf net.now shells.old.items × AllSound shells.old.items }
    ensures exchange { AllOf net.now shells.new.items }
    ensures sound { AllSound shells.new.items }
    ensures numbers { crew_numbers shells.new.items ≡ crew_numbers shells.old.items }
{
    if place < shells.len() {
        went(rt, alloc, &mut shells[place]);
    }
}
