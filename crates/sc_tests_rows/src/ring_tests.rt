//! A group that is alone splits, and its child splits, watched by its parent, which has not heard
//! of the end. Ring and records are compared with those that a second implementation gives.
use sc_base::{Boxed, Draw, Key, Members, Op, Pairs, RingArc, SeenList, Sequence, Value};
use sc_meaning::{Cut, LogEntry};
use sc_words::{Base, Command, Core, Link, Lock, Past, Watch};
use sc_world_checks::{covers, legal};
use sc_world_groups::StoreWorld;
use std::alloc::Global;
use std::mem::forget;
use std::process::Abort;

const PARENT: Draw = Draw { node: 0, count: 1 };

const CHILD: Draw = Draw { node: 1, count: 1 };

const GRANDCHILD: Draw = Draw { node: 3, count: 1 };

const HALF: u32 = 2_147_483_648;

const QUARTER: u32 = 3_221_225_472;

fn link(group: Draw, members: &Members) -> Link {
    Link {
        group,
        members: *members,
    }
}

fn two(rt: &impl Abort, first: u16, second: u16) -> Members {
    let mut members = Members::one(first);
    members.add(second).expect(rt, "another node");
    members
}

fn four(rt: &impl Abort) -> Members {
    let mut members = two(rt, 1, 2);
    members.add(3).expect(rt, "another node");
    members.add(4).expect(rt, "another node");
    members
}

/// Returns the birth record of the parent.
pub fn parent(rt: &impl Abort, alloc: Global) -> Base {
    let members = four(rt);
    Base {
        core: Core {
            id: PARENT,
            first: 1,
            arc: RingArc::try_new(0, 1 << 32).expect(rt, "an arc"),
            members,
            succ: link(PARENT, &members),
            pred: link(PARENT, &members),
            lock: Lock::Free,
            begun: 0,
            decided: Sequence::new(alloc),
            voted: Sequence::new(alloc),
            born: Sequence::new(alloc),
            gone: None,
        },
        pairs: Pairs::new(alloc),
        clients: SeenList::new(alloc),
    }
}

fn put(rt: &impl Abort, alloc: Global) -> Command {
    let op = Op::Put {
        key: Key::try_new(alloc, b"m").expect(rt, "a key"),
        value: Value::try_new(alloc, b"x").expect(rt, "a value"),
    };
    Command::Call {
        client: 1,
        seq: 1,
        op,
    }
}

fn watched(rt: &impl Abort, alloc: Global) -> Command {
    let watch = Watch {
        coord: CHILD,
        members: two(rt, 3, 4),
        part: PARENT,
        old: CHILD,
        next: link(GRANDCHILD, &Members::one(4)),
        by: 3,
    };
    Command::Watched {
        tx: GRANDCHILD,
        watch: Boxed::new(alloc, watch).expect(rt, "memory"),
    }
}

fn add_entry(rt: &impl Abort, world: &mut StoreWorld, group: Draw, slot: u32, command: Command) {
    let entry = LogEntry {
        group,
        slot,
        command,
    };
    world.add_entry(&entry).expect(rt, "memory");
    forget(entry);
}

fn split(at: u32, child: Draw) -> Command {
    Command::Split {
        at,
        child,
        order: 1,
    }
}

// Returns the world after the entries.
fn world_of_entries(rt: &impl Abort, alloc: Global) -> StoreWorld {
    let bases = [parent(rt, alloc)];
    let mut world = StoreWorld::first(alloc, &bases).expect(rt, "memory");
    forget(bases);
    add_entry(rt, &mut world, PARENT, 1, put(rt, alloc));
    add_entry(rt, &mut world, PARENT, 2, split(HALF, CHILD));
    add_entry(rt, &mut world, CHILD, 1, split(QUARTER, GRANDCHILD));
    add_entry(rt, &mut world, PARENT, 3, watched(rt, alloc));
    let vote = Command::RecordWatch {
        tx: GRANDCHILD,
        vote: Past::Yes,
        by: 1,
    };
    add_entry(rt, &mut world, CHILD, 2, vote);
    world
}

fn is_cut(cut: &Cut, lo: u32, len: u64, group: Draw) -> bool {
    cut.arc.lo() == lo && cut.arc.len() == len && cut.group == group
}

// Returns whether a ring covers, and is of the three groups.
fn is_of_three(ring: &[Cut]) -> bool {
    ring.len() == 3
        && is_cut(&ring[0], 0, 2_147_483_648, PARENT)
        && is_cut(&ring[1], HALF, 1_073_741_824, CHILD)
        && is_cut(&ring[2], QUARTER, 1_073_741_824, GRANDCHILD)
        && covers(ring)
        && !covers(&ring[1..])
}

#[test]
fn a_child_that_splits_leaves_three_cuts(rt: HostRuntime) {
    let world = world_of_entries(&rt, rt.alloc());
    let is_of_three = is_of_three(world.ring());
    forget(world);
    assert!(rt; is_of_three);
}

// Returns the group before the parent, as the parent knows it.
fn before_parent(rt: &impl Abort, world: &StoreWorld) -> Draw {
    world.group(PARENT).expect(rt, "a group").core().pred.group
}

// Returns the groups before and behind the parent in its effective record.
fn around_parent(rt: &impl Abort, world: &StoreWorld) -> (Draw, Draw) {
    let base = world
        .effective(PARENT)
        .expect(rt, "memory")
        .expect(rt, "a group");
    let around = (base.core.pred.group, base.core.succ.group);
    forget(base);
    around
}

#[test]
fn a_watcher_that_has_not_heard_has_the_new_neighbour_all_the_same(rt: HostRuntime) {
    let world = world_of_entries(&rt, rt.alloc());
    let before = before_parent(&rt, &world);
    let around = around_parent(&rt, &world);
    forget(world);
    assert!(rt; before == CHILD && around == (GRANDCHILD, CHILD));
}

#[test]
fn the_history_is_the_put(rt: HostRuntime) {
    let world = world_of_entries(&rt, rt.alloc());
    let history = world.history();
    let is_one = history.len() == 1;
    let is_legal = legal(rt.alloc(), history).expect(&rt, "memory");
    forget(world);
    assert!(rt; is_one && is_legal);
}
