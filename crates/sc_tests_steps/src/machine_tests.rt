use crate::asks::{Was, applied};
use sc_base::{Draw, Key, Members, Op, Pairs, RingArc, SeenList, Sequence, Value};
use sc_group::Machine;
use sc_group_parts::can_split;
use sc_words::{Base, Command, Core, Link, Lock};
use std::alloc::Global;
use std::mem::forget;
use std::process::Abort;

const GROUP: Draw = Draw { node: 0, count: 1 };

const CHILD: Draw = Draw { node: 1, count: 1 };

// The position of the key `aa`.
const AA: u32 = 0x6161_0000;

fn link(members: &Members) -> Link {
    Link {
        group: GROUP,
        members: *members,
    }
}

fn core(alloc: Global, arc: RingArc, members: &Members) -> Core {
    Core {
        id: GROUP,
        first: 1,
        arc,
        members: *members,
        succ: link(members),
        pred: link(members),
        lock: Lock::Free,
        begun: 0,
        decided: Sequence::new(alloc),
        voted: Sequence::new(alloc),
        born: Sequence::new(alloc),
        gone: None,
    }
}

// Returns a group on the positions from 0 to that of the key `b`, which it does not hold.
fn group(rt: &impl Abort, alloc: Global) -> Base {
    let arc = RingArc::try_new(0, 0x6200_0000).expect(rt, "an arc");
    Base {
        core: core(alloc, arc, &Members::one(1)),
        pairs: Pairs::new(alloc),
        clients: SeenList::new(alloc),
    }
}

fn put(rt: &impl Abort, alloc: Global, seq: u32, key: &[u8], value: &[u8]) -> Command {
    let op = Op::Put {
        key: Key::try_new(alloc, key).expect(rt, "a key"),
        value: Value::try_new(alloc, value).expect(rt, "a value"),
    };
    Command::Call { client: 1, seq, op }
}

// A command in brief: a node that joins or leaves, the boundary of a split, or a put of client 1 by
// its number, key and value.
#[derive(Clone, Copy)]
enum Ask {
    Join(u16),
    Leave(u16),
    Split(u32),
    Put(u32, &'static [u8], &'static [u8]),
}

// A command, and its effect.
type Step = (Ask, Was);

fn command_of(rt: &impl Abort, alloc: Global, ask: Ask) -> Command {
    match ask {
        Ask::Join(node) => Command::Join { node, order: 1 },
        Ask::Leave(node) => Command::Leave { node, order: 1 },
        Ask::Split(at) => Command::Split {
            at,
            child: CHILD,
            order: 1,
        },
        Ask::Put(seq, key, value) => put(rt, alloc, seq, key, value),
    }
}

// Carries out these commands, one after the other, and checks the effect of each.
fn take(rt: &impl Abort, alloc: Global, machine: &mut Machine, steps: &[Step]) {
    for (ask, effect) in steps {
        let was = applied(rt, machine, command_of(rt, alloc, *ask));
        assert!(rt; was == *effect);
    }
}

// Returns a new machine that has carried out these commands.
fn machine_after(rt: &impl Abort, alloc: Global, steps: &[Step]) -> Machine {
    let mut machine = Machine::born(alloc, group(rt, alloc)).expect(rt, "memory");
    take(rt, alloc, &mut machine, steps);
    machine
}

const REQUESTS: &[Step] = &[
    (Ask::Put(1, b"a", b"x"), Was::Done),
    (Ask::Put(1, b"a", b"y"), Was::Again),
    (Ask::Put(2, b"a", b"z"), Was::Found),
    (Ask::Put(1, b"a", b"x"), Was::Stale),
    (Ask::Put(3, b"b", b"x"), Was::NotMine),
];

#[test]
fn requests_take_effect_once(rt: HostRuntime) {
    let machine = machine_after(&rt, rt.alloc(), REQUESTS);
    let begun = machine.core().begun;
    forget(machine);
    assert!(rt; begun == 0);
}

fn has_one_of_each(record: &Base) -> bool {
    record.pairs.len() == 1 && record.clients.len() == 1
}

const ONE: &[Step] = &[(Ask::Put(1, b"a", b"x"), Was::Done)];

// Returns the record of a machine that carried out one request, with one pair and one client.
fn record_after_one(rt: &impl Abort, alloc: Global) -> Base {
    let machine = machine_after(rt, alloc, ONE);
    let record = machine.base().expect(rt, "memory");
    forget(machine);
    assert!(rt; has_one_of_each(&record));
    record
}

const AFTER_ONE: &[Step] = &[
    (Ask::Put(1, b"a", b"y"), Was::Again),
    (Ask::Put(2, b"a", b"y"), Was::Found),
];

#[test]
fn a_machine_born_from_the_record_goes_on(rt: HostRuntime) {
    let record = record_after_one(&rt, rt.alloc());
    let mut machine = Machine::born(rt.alloc(), record).expect(&rt, "memory");
    take(&rt, rt.alloc(), &mut machine, AFTER_ONE);
    forget(machine);
}

fn has_members(machine: &Machine, members: &[u16]) -> bool {
    machine.core().members.as_slice() == members
}

const JOIN: &[Step] = &[
    (Ask::Leave(1), Was::Refused(7)),
    (Ask::Join(2), Was::Changed),
    (Ask::Join(2), Was::Refused(9)),
];

const LEAVE: &[Step] = &[(Ask::Leave(1), Was::Changed)];

#[test]
fn nodes_join_and_leave(rt: HostRuntime) {
    let mut machine = machine_after(&rt, rt.alloc(), JOIN);
    let joined = has_members(&machine, &[1, 2]);
    take(&rt, rt.alloc(), &mut machine, LEAVE);
    let left = has_members(&machine, &[2]);
    forget(machine);
    assert!(rt; joined && left);
}

// The commands of a group of the nodes 1 and 2 with a pair at each of `a` and `az`.
const TWO_NODES: &[Step] = &[
    (Ask::Join(2), Was::Changed),
    (Ask::Put(1, b"a", b"x"), Was::Done),
    (Ask::Put(2, b"az", b"y"), Was::Done),
];

const SPLIT: &[Step] = &[
    (Ask::Split(0), Was::Refused(4)),
    (Ask::Split(AA), Was::Changed),
    (Ask::Put(3, b"az", b"z"), Was::NotMine),
    (Ask::Put(3, b"a", b"z"), Was::Found),
];

#[test]
fn a_group_splits_and_serves_what_it_keeps(rt: HostRuntime) {
    let mut machine = machine_after(&rt, rt.alloc(), TWO_NODES);
    take(&rt, rt.alloc(), &mut machine, SPLIT);
    let left = has_members(&machine, &[1]);
    forget(machine);
    assert!(rt; left);
}

// Returns the record of the child of that group.
fn child_record(rt: &impl Abort, alloc: Global) -> Base {
    let machine = machine_after(rt, alloc, TWO_NODES);
    assert!(rt; can_split(machine.core(), AA));
    let record = machine.child(AA, CHILD).expect(rt, "memory");
    forget(machine);
    record
}

const OF_CHILD: &[Step] = &[
    (Ask::Put(2, b"az", b"y"), Was::Again),
    (Ask::Put(3, b"az", b"z"), Was::Found),
    (Ask::Put(4, b"a", b"z"), Was::NotMine),
];

#[test]
fn the_child_serves_the_rest_and_knows_each_client(rt: HostRuntime) {
    let record = child_record(&rt, rt.alloc());
    let mut child = Machine::born(rt.alloc(), record).expect(&rt, "memory");
    take(&rt, rt.alloc(), &mut child, OF_CHILD);
    let first = child.core().first;
    forget(child);
    assert!(rt; first == 2);
}
