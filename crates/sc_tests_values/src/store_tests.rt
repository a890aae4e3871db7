use crate::values::{get, has_old, key, put, value};
use sc_base::{Op, Pairs, RingArc};
use sc_group_parts::Store;
use std::alloc::Global;
use std::mem::forget;
use std::process::Abort;

// An operation on a key, with its values.
#[derive(Clone, Copy)]
enum Ask {
    Get(&'static [u8]),
    Put(&'static [u8], &'static [u8]),
    Add(&'static [u8], &'static [u8]),
    Del(&'static [u8]),
    Cas(&'static [u8], &'static [u8], &'static [u8]),
}

fn op_of(rt: &impl Abort, alloc: Global, ask: Ask) -> Op {
    match ask {
        Ask::Get(name) => get(rt, alloc, name),
        Ask::Put(name, new) => put(rt, alloc, name, new),
        Ask::Add(name, new) => Op::Add {
            key: key(rt, alloc, name),
            value: value(rt, alloc, new),
        },
        Ask::Del(name) => Op::Del {
            key: key(rt, alloc, name),
        },
        Ask::Cas(name, old, new) => Op::Cas {
            key: key(rt, alloc, name),
            expect: value(rt, alloc, old),
            value: value(rt, alloc, new),
        },
    }
}

// Returns whether an operation is answered with this old value.
fn answers(
    rt: &impl Abort,
    alloc: Global,
    store: &mut Store,
    ask: Ask,
    old: Option<&[u8]>,
) -> bool {
    let op = op_of(rt, alloc, ask);
    let reply = store.apply(&op).expect(rt, "memory");
    let is_told = has_old(&reply, old);
    forget(reply);
    forget(op);
    is_told
}

// An operation, and the old value that is the answer.
type Step = (Ask, Option<&'static [u8]>);

fn check(rt: &impl Abort, alloc: Global, store: &mut Store, steps: &[Step]) {
    for (ask, old) in steps {
        assert!(rt; answers(rt, alloc, store, *ask, *old));
    }
}

const OPERATIONS: &[Step] = &[
    (Ask::Put(b"a", b"x"), None),
    (Ask::Put(b"a", b"y"), Some(b"x")),
    (Ask::Add(b"a", b"z"), Some(b"y")),
    (Ask::Cas(b"a", b"z", b"w"), Some(b"y")),
    (Ask::Cas(b"a", b"y", b"v"), Some(b"y")),
    (Ask::Del(b"a"), Some(b"v")),
    (Ask::Add(b"a", b"u"), None),
    (Ask::Get(b"a"), Some(b"u")),
];

#[test]
fn operations_answer_the_old_value(rt: HostRuntime) {
    let mut store = Store::new(rt.alloc());
    check(&rt, rt.alloc(), &mut store, OPERATIONS);
    forget(store);
}

// The position of the key `m`.
const M: u32 = 0x6d00_0000;

// Returns whether there are `many` pairs, the first with this key and the last with this value.
fn are_pairs(pairs: &Pairs, many: usize, key: &[u8], value: &[u8]) -> bool {
    match pairs.as_slice() {
        [one] => many == 1 && one.0.bytes() == key && one.1.bytes() == value,
        [first, last] => many == 2 && first.0.bytes() == key && last.1.bytes() == value,
        _ => false,
    }
}

// Returns whether the store lists two pairs, the first with this key, the second with this value.
fn lists_two(rt: &impl Abort, store: &Store, key: &[u8], value: &[u8]) -> bool {
    let all = store.list().expect(rt, "memory");
    let are_two = are_pairs(&all, 2, key, value);
    forget(all);
    are_two
}

// Takes the part from `m` on out of a store, checks that the store has no `m` then, and joins the
// part again. Returns whether the part is the one pair of `m` and `2`.
fn moves(rt: &impl Abort, alloc: Global, store: &mut Store) -> bool {
    let from_m = RingArc::try_new(M, 1 << 31).expect(rt, "an arc");
    let moved = store.part(&from_m).expect(rt, "memory");
    let before_m = RingArc::try_new(0, M as u64).expect(rt, "an arc");
    store.keep(&before_m);
    check(rt, alloc, store, &[(Ask::Get(b"m"), None)]);
    store.join(&moved).expect(rt, "memory");
    let is_moved = are_pairs(&moved, 1, b"m", b"2");
    forget(moved);
    is_moved
}

const TWO: &[Step] = &[(Ask::Put(b"a", b"1"), None), (Ask::Put(b"m", b"2"), None)];

#[test]
fn parts_are_taken_kept_and_joined(rt: HostRuntime) {
    let mut store = Store::new(rt.alloc());
    check(&rt, rt.alloc(), &mut store, TWO);
    let lists_two = lists_two(&rt, &store, b"a", b"2");
    let moves = moves(&rt, rt.alloc(), &mut store);
    check(&rt, rt.alloc(), &mut store, &[(Ask::Get(b"m"), Some(b"2"))]);
    forget(store);
    assert!(rt; lists_two && moves);
}
