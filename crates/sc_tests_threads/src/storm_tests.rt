ghost use Rattle.std.specs.Prelude.{[]};

use sc_actor::{Actor, Input, Line, Parcel};
use sc_base::{Dup, OutOfMemory, Sequence};
use sc_thread_pool::{Deed, Storm, deed_at, deeds_are_rows_of_the_walk};
use sc_thread_ports::{Glance, Look, Spot};
use std::alloc::Global;
use std::mem::forget;
use std::process::Abort;

#[derive(Drop)]
struct Note {
    to: u32,
}

impl Dup for Note {
    fn dup(&self, _alloc: Global) -> Result<Note, OutOfMemory> {
        Ok(Note { to: self.to })
    }
}

impl Parcel for Note {
    ghost receiver = { λ note. note.to };

    ghost weighs = { λ _. 0 };

    fn to(&self) -> u32 {
        self.to
    }

    fn weight(&self) -> u64 {
        0
    }
}

/// An actor that sends nothing.
#[derive(Drop)]
struct Silent;

impl Actor for Silent {
    type Mail = Note;

    type Order = u32;

    ghost table = { λ silent _. (silent, []) };

    fn step(
        &mut self,
        alloc: Global,
        _input: &Input<Note, u32>,
    ) -> Result<Sequence<Note>, OutOfMemory> {
        Ok(Sequence::new(alloc))
    }
}

/// The words of the first two steps of the storms 0, 7 and 2^64 - 1, from another program.
const FIRST_WORDS: [(u64, (u32, u32), (u32, u32)); 3] = [
    (0, (804192318, 3594542985), (3904396159, 2711947551)),
    (7, (742701683, 3281823346), (3936197989, 2001186818)),
    (u64::MAX, (577849543, 3025045049), (2693900732, 999971585)),
];

/// The actors: a node and a client.
const ACTORS: [u32; 2] = [1, 33];

/// The first steps of storm 0 where nine mails were sent, and 4, 5 and 9 are pending for the
/// actors, 4 and 9 of them for node 1.
const STEPS_OF_ZERO: [Deed; 10] = [
    Deed::Deliver { who: 1, k: 1 },
    Deed::Deliver { who: 1, k: 1 },
    Deed::Deliver { who: 1, k: 1 },
    Deed::Deliver { who: 1, k: 1 },
    Deed::Deliver { who: 33, k: 1 },
    Deed::Deliver { who: 33, k: 1 },
    Deed::Again { number: 8 },
    Deed::Deliver { who: 33, k: 1 },
    Deed::Tick { who: 1 },
    Deed::Deliver { who: 1, k: 2 },
];

/// The first steps of storm 7 where nine mails were sent, and 4, 5 and 9 are pending for the
/// actors.
const STEPS_OF_SEVEN: [Deed; 4] = [
    Deed::Deliver { who: 33, k: 1 },
    Deed::Deliver { who: 1, k: 2 },
    Deed::Deliver { who: 1, k: 1 },
    Deed::Drop {
        number: 4,
        who: 1,
        k: 1,
    },
];

fn spot(number: u32, who: u32, k: u32) -> Spot {
    Spot { number, who, k }
}

/// Returns a look at nine sent mails of which 4, 5, 7 and 9 are pending, 7 for none of the actors.
fn some(rt: &impl Abort, alloc: Global) -> Look {
    let mut pending = Sequence::new(alloc);
    for spot in [spot(4, 1, 1), spot(5, 33, 1), spot(7, 2, 1), spot(9, 1, 2)] {
        pending.push(spot).expect(rt, "memory");
    }
    Look { sent: 9, pending }
}

/// Returns a look where no mail was sent.
fn nothing(alloc: Global) -> Look {
    let pending = Sequence::new(alloc);
    Look { sent: 0, pending }
}

/// Returns the words of the two steps of a storm behind the first `after` steps.
fn words(number: u64, after: u32) -> ((u32, u32), (u32, u32)) {
    let mut storm = Storm::start(number);
    for _ in 0..after {
        let _ = storm.draw();
    }
    (storm.draw(), storm.draw())
}

#[test]
fn words_are_those_of_the_number(rt: HostRuntime) {
    for (number, first, second) in FIRST_WORDS {
        assert!(rt; words(number, 0) == (first, second));
    }
}

#[test]
fn words_go_on_past_a_block(rt: HostRuntime) {
    assert!(rt; words(7, 19).0 == (1224064553, 3074110426));
}

/// Returns whether the first steps of a storm are these.
fn steps_so(look: &Look, number: u64, deeds: &[Deed]) -> bool {
    let mut storm = Storm::start(number);
    for deed in deeds {
        if storm.deed(look, &ACTORS) != *deed {
            return false;
        }
    }
    true
}

#[test]
fn steps_of_a_storm(rt: HostRuntime) {
    let look = some(&rt, rt.alloc());
    let zero = steps_so(&look, 0, &STEPS_OF_ZERO);
    let seven = steps_so(&look, 7, &STEPS_OF_SEVEN);
    forget(look);
    assert!(rt; zero && seven);
}

/// Shows the four kinds of steps by a glance: nine mails were sent, and the word picks a copy of
/// mail 9.
#[test]
fn steps_by_a_glance(rt: HostRuntime) {
    let glance = Glance {
        sent: 9,
        spot: Some(spot(9, 1, 2)),
    };
    let lost = Deed::Drop {
        number: 9,
        who: 1,
        k: 2,
    };
    assert!(rt; deed_at(&glance, &ACTORS, (16, 7)) == lost);
    assert!(rt; deed_at(&glance, &ACTORS, (1, 16)) == Deed::Again { number: 8 });
    assert!(rt; deed_at(&glance, &ACTORS, (34, 7)) == Deed::Tick { who: 33 });
    assert!(rt; deed_at(&glance, &ACTORS, (3, 7)) == Deed::Deliver { who: 1, k: 2 });
}

/// The first steps of storm 0 where nothing is pending: its ticks, and nothing in place of the
/// others.
const TICKS_OF_ZERO: [Deed; 10] = [
    Deed::Nothing,
    Deed::Nothing,
    Deed::Nothing,
    Deed::Nothing,
    Deed::Nothing,
    Deed::Nothing,
    Deed::Nothing,
    Deed::Nothing,
    Deed::Tick { who: 1 },
    Deed::Nothing,
];

#[test]
fn a_storm_over_nothing_ticks_alone(rt: HostRuntime) {
    let look = nothing(rt.alloc());
    let ticks = steps_so(&look, 0, &TICKS_OF_ZERO);
    forget(look);
    assert!(rt; ticks);
}

#[test]
fn the_law_of_deeds_is_of_any_actor() {
    deeds_are_rows_of_the_walk::<Silent>();
}

/// Returns whether the line loses the mail at this place of this actor's pending mail.
fn is_loss(line: &Option<Line<u32>>, actor: u32, place: u32) -> bool {
    match line {
        Some(Line::Drop { who, k }) => *who == actor && *k == place,
        _ => false,
    }
}

#[test]
fn each_deed_is_a_line(rt: HostRuntime) {
    let lost = Deed::Drop {
        number: 4,
        who: 1,
        k: 2,
    }
    .line();
    let none: Option<Line<u32>> = Deed::Nothing.line();
    assert!(rt; is_loss(&lost, 1, 2) && none.is_none());
}
