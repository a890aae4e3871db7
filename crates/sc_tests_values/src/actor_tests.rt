//! An actor that passes what it gets on to the desk.
ghost use Rattle.std.specs.Prelude.{[], ◌∷◌};

use sc_actor::{
    Actor, Event, Gate, Input, Journal, Parcel, Row, Seat, journals_are_counted, journals_grow,
    lawful_journals_grow, next_rows_are_steps,
};
use sc_base::{Dup, OutOfMemory, Sequence};
use std::alloc::Global;
use std::mem::forget;
use std::process::Abort;

#[derive(Drop)]
struct Note {
    to: u32,
    size: u64,
}

impl Dup for Note {
    fn dup(&self, _alloc: Global) -> Result<Note, OutOfMemory> {
        Ok(Note {
            to: self.to,
            size: self.size,
        })
    }
}

impl Parcel for Note {
    ghost receiver = { λ note. note.to };

    ghost weighs = { λ note. note.size };

    fn to(&self) -> u32 {
        self.to
    }

    fn weight(&self) -> u64 {
        self.size
    }
}

#[derive(Drop)]
struct Relay {
    size: u64,
}

impl Actor for Relay {
    type Mail = Note;

    type Order = u32;

    ghost table = { λ relay _. (relay, (record { to = 0; size = relay.size }) ∷ []) };

    fn step(
        &mut self,
        alloc: Global,
        _input: &Input<Note, u32>,
    ) -> Result<Sequence<Note>, OutOfMemory> {
        let mut sent = Sequence::new(alloc);
        sent.push(Note {
            to: 0,
            size: self.size,
        })?;
        Ok(sent)
    }
}

struct Open;

impl Gate for Open {
    fn pass(&self, _who: u32) {}
}

fn first_row<A: Actor, G: Gate>(
    rt: &impl Abort,
    alloc: Global,
    seat: &mut Seat<A>,
    gate: &G,
    journal: &mut Journal<A::Mail, A::Order>,
) -> u64 {
    gate.pass(seat.who);
    let sent = seat.actor.step(alloc, &Input::Go).expect(rt, "memory");
    let weight = match sent.as_slice() {
        [mail] => mail.weight(),
        _ => 0,
    };
    let row = Row {
        who: seat.who,
        event: Event::Go,
        sent,
    };
    journal.push(row).expect(rt, "memory");
    weight
}

#[test]
fn an_actor_makes_a_row(rt: HostRuntime) {
    let mut seat = Seat {
        who: 1,
        actor: Relay { size: 7 },
    };
    let mut journal = Journal::new(rt.alloc());
    let weight = first_row(&rt, rt.alloc(), &mut seat, &Open, &mut journal);
    let rows = journal.len();
    forget(journal);
    assert!(rt; weight == 7 && rows == 1);
    journals_grow::<Relay>();
    lawful_journals_grow::<Relay>();
    next_rows_are_steps::<Relay>();
    journals_are_counted::<Relay>();
}
