use sc_base::{Draw, Key, Members, Op, Pairs, RingArc, Sequence, Value};
use sc_group_parts::Store;
use sc_group_table::{Body0, keys_rise_from_the_start, wish, wished_order};
use sc_words::{Core, Link, Lock, Order};
use std::alloc::Global;
use std::mem::forget;
use std::process::Abort;

/// The group that the policy looks at.
const GROUP: Draw = Draw { node: 0, count: 1 };

/// Another group.
const OTHER: Draw = Draw { node: 0, count: 2 };

/// The number of positions of the ring.
const ALL: u64 = 1 << 32;

/// Returns the nodes from 1 to `last`, or node 1 alone where that is no set of members.
fn nodes_to(last: u16) -> Members {
    let mut members = Members::one(1);
    for node in 2..=last {
        let _ = members.add(node);
    }
    members
}

/// Returns a link to a neighbour, whose members do not matter.
fn link(group: Draw) -> Link {
    Link {
        group,
        members: Members::one(9),
    }
}

/// Returns a group with the members from 1 to `last` on an arc, with the same neighbour on both
/// sides.
fn group(alloc: Global, last: u16, arc: RingArc, neighbour: Draw) -> Core {
    Core {
        id: GROUP,
        first: 1,
        arc,
        members: nodes_to(last),
        succ: link(neighbour),
        pred: link(neighbour),
        lock: Lock::Free,
        begun: 0,
        decided: Sequence::new(alloc),
        voted: Sequence::new(alloc),
        born: Sequence::new(alloc),
        gone: None,
    }
}

fn put(rt: &impl Abort, alloc: Global, store: &mut Store, key: &[u8]) {
    let op = Op::Put {
        key: Key::try_new(alloc, key).expect(rt, "a key"),
        value: Value::try_new(alloc, b"v").expect(rt, "a value"),
    };
    let _ = store.apply(&op).expect(rt, "memory");
    forget(op);
}

/// Returns `many` pairs, at most 188. Key i is `prefix` and the bytes 33 + i / 94 and 33 + i % 94.
fn pairs(rt: &impl Abort, alloc: Global, prefix: &[u8], many: usize) -> Pairs {
    let mut store = Store::new(alloc);
    let mut count = 0;
    for first in 33..35u8 {
        for second in 33..127u8 {
            if count < many {
                count += 1;
                let mut key = Vec::from_slice(alloc, prefix).expect(rt, "memory");
                key.push(first).expect(rt, "memory");
                key.push(second).expect(rt, "memory");
                put(rt, alloc, &mut store, key.as_slice());
            }
        }
    }
    let list = store.list().expect(rt, "memory");
    forget(store);
    list
}

/// A group by its number of members, its neighbour, and its arc, by start and length; and what the
/// policy wants of it.
type Wished = ((u16, Draw), (u32, u64), Option<Body0>);

/// Returns whether the policy wants this of a group with those pairs.
fn is_wished(rt: &impl Abort, alloc: Global, keys: &Pairs, wished: &Wished) -> bool {
    let ((last, neighbour), (lo, len), body) = *wished;
    let arc = RingArc::try_new(lo, len).expect(rt, "an arc");
    let core = group(alloc, last, arc, neighbour);
    let is_so = wish(&core, keys) == body;
    forget(core);
    is_so
}

/// Checks what the policy wants of each of these groups with those pairs.
fn check_all(rt: &impl Abort, alloc: Global, keys: &Pairs, all: &[Wished]) {
    for wished in all {
        assert!(rt; is_wished(rt, alloc, keys, wished));
    }
}

/// Checks what the policy wants of each of these groups with `many` pairs whose keys begin with
/// `prefix`.
fn check_with(rt: &impl Abort, alloc: Global, (prefix, many): (&[u8], usize), all: &[Wished]) {
    let keys = pairs(rt, alloc, prefix, many);
    check_all(rt, alloc, &keys, all);
    forget(keys);
}

const MIDDLE: u32 = 2147483648;

const CROWDED: &[Wished] = &[
    ((8, GROUP), (0, ALL), Some(Body0::Split { at: MIDDLE })),
    ((9, OTHER), (0, ALL), Some(Body0::Split { at: MIDDLE })),
    ((8, OTHER), (4294967290, 21), Some(Body0::Split { at: 4 })),
    ((8, OTHER), (7, 1), None),
    ((7, OTHER), (0, ALL), None),
];

#[test]
fn a_crowded_group_is_split_in_the_middle(rt: HostRuntime) {
    check_with(&rt, rt.alloc(), (b"", 0), CROWDED);
}

const SMALL: &[Wished] = &[
    ((1, OTHER), (0, 9), Some(Body0::Merge)),
    ((2, OTHER), (0, 9), Some(Body0::Merge)),
    ((3, OTHER), (0, 9), None),
    ((2, GROUP), (0, ALL), None),
];

#[test]
fn a_small_group_with_a_neighbour_is_merged(rt: HostRuntime) {
    check_with(&rt, rt.alloc(), (b"", 0), SMALL);
}

const FULL: &[Wished] = &[
    ((3, OTHER), (0, ALL), Some(Body0::Repart { at: 560005120 })),
    (
        (3, OTHER),
        (572981248, ALL),
        Some(Body0::Repart { at: 558104576 }),
    ),
    ((3, GROUP), (0, ALL), None),
    ((2, OTHER), (0, ALL), Some(Body0::Merge)),
];

#[test]
fn the_boundary_of_a_full_group_moves_to_its_middle_key(rt: HostRuntime) {
    check_with(&rt, rt.alloc(), (b"", 129), FULL);
}

const FEW: &[Wished] = &[((3, OTHER), (0, ALL), None)];

const HEAP: &[Wished] = &[
    ((3, OTHER), (0, ALL), Some(Body0::Repart { at: 1633771873 })),
    ((3, OTHER), (1633771873, ALL), None),
];

#[test]
fn a_boundary_stays_where_it_cannot_move(rt: HostRuntime) {
    check_with(&rt, rt.alloc(), (b"", 128), FEW);
    check_with(&rt, rt.alloc(), (b"aaaa", 129), HEAP);
}

/// Returns whether the policy's order is one to the group to merge.
fn is_merge(rt: &impl Abort, alloc: Global) -> bool {
    let arc = RingArc::try_new(0, 9).expect(rt, "an arc");
    let core = group(alloc, 1, arc, OTHER);
    let none = Pairs::new(alloc);
    let order = wished_order(&core, &none);
    forget(core);
    match order {
        Some(Order::Merge { group }) => group == GROUP,
        _ => false,
    }
}

#[test]
fn the_order_is_to_the_group(rt: HostRuntime) {
    assert!(rt; is_merge(&rt, rt.alloc()));
    keys_rise_from_the_start();
}
