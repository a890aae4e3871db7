//! Parts of arcs, pairs in the order of the circle, and pages.
use sc_base::{Draw, Key, Op, Pairs, RingArc, Value};
use sc_group_parts::Store;
use sc_meaning::Cut;
use sc_world_entries::{Page, Part, ordered, page, parts};
use std::alloc::Global;
use std::mem::forget;
use std::process::Abort;

const WHOLE: u64 = 4_294_967_296;

// The position of the key `m`.
const AT_M: u32 = 1_828_716_544;

// The position behind that of the key `a`.
const BEHIND_A: u32 = 1_627_389_953;

const HALF: u32 = 2_147_483_648;

const FIRST: Draw = Draw { node: 0, count: 1 };

const SECOND: Draw = Draw { node: 0, count: 2 };

fn key(rt: &impl Abort, alloc: Global, byte: u8) -> Key {
    Key::try_new(alloc, &[byte]).expect(rt, "a key")
}

fn put(rt: &impl Abort, alloc: Global, store: &mut Store, byte: u8) {
    let op = Op::Put {
        key: key(rt, alloc, byte),
        value: Value::try_new(alloc, b"v").expect(rt, "a value"),
    };
    let reply = store.apply(&op).expect(rt, "memory");
    forget(reply);
    forget(op);
}

// Returns the pairs with the keys `a`, `m` and `z`.
fn three(rt: &impl Abort, alloc: Global) -> Pairs {
    let mut store = Store::new(alloc);
    for byte in b"zam" {
        put(rt, alloc, &mut store, *byte);
    }
    let pairs = store.list().expect(rt, "memory");
    forget(store);
    pairs
}

fn arc(rt: &impl Abort, lo: u32, len: u64) -> RingArc {
    RingArc::try_new(lo, len).expect(rt, "an arc")
}

fn have_keys(list: &[(Key, Value)], keys: &[u8]) -> bool {
    if list.len() != keys.len() {
        return false;
    }
    for (i, pair) in list.iter().enumerate() {
        if i < keys.len() && pair.0.bytes() != [keys[i]].as_slice() {
            return false;
        }
    }
    true
}

fn is_page(page: &Page, keys: &[u8], next: Option<u8>) -> bool {
    let goes_on = match (&page.next, next) {
        (Some(key), Some(byte)) => key.bytes() == [byte].as_slice(),
        (None, None) => true,
        _ => false,
    };
    have_keys(&page.pairs, keys) && goes_on
}

// Returns the pairs of the whole circle from the key `m` on.
fn from_m(rt: &impl Abort, alloc: Global) -> Vec<(Key, Value)> {
    let pairs = three(rt, alloc);
    let list = ordered(alloc, &arc(rt, AT_M, WHOLE), &pairs).expect(rt, "memory");
    forget(pairs);
    list
}

#[test]
fn pairs_come_in_the_order_from_the_arcs_start(rt: HostRuntime) {
    let list = from_m(&rt, rt.alloc());
    let is_so = have_keys(&list, b"mza");
    forget(list);
    assert!(rt; is_so);
}

// Returns whether the page behind a key, or the first page, is this one.
fn gives(
    rt: &impl Abort,
    alloc: Global,
    after: Option<&Key>,
    keys: &[u8],
    next: Option<u8>,
) -> bool {
    let list = from_m(rt, alloc);
    let page = page(alloc, &list, after, 2).expect(rt, "memory");
    let is_so = is_page(&page, keys, next);
    forget(page);
    forget(list);
    is_so
}

#[test]
fn pages_of_two_share_three_pairs(rt: HostRuntime) {
    let z = key(&rt, rt.alloc(), b'z');
    let first = gives(&rt, rt.alloc(), None, b"mz", Some(b'z'));
    let second = gives(&rt, rt.alloc(), Some(&z), b"a", None);
    forget(z);
    assert!(rt; first && second);
}

// A part of an arc: its start, its length and its group.
type Wanted = (u32, u64, Draw);

fn are_parts(parts: &[Part], wanted: &[Wanted]) -> bool {
    if parts.len() != wanted.len() {
        return false;
    }
    for (i, part) in parts.iter().enumerate() {
        if i < wanted.len() {
            let (lo, len, group) = wanted[i];
            if part.arc.lo() != lo || part.arc.len() != len || part.group != group {
                return false;
            }
        }
    }
    true
}

// Returns whether an arc has these parts in a ring.
fn has_parts(
    rt: &impl Abort,
    alloc: Global,
    ring: &[Cut],
    asked: RingArc,
    wanted: &[Wanted],
) -> bool {
    let parts = parts(alloc, ring, &asked).expect(rt, "memory");
    are_parts(&parts, wanted)
}

#[test]
fn an_arc_over_the_top_of_one_group_has_two_parts(rt: HostRuntime) {
    let ring = [Cut {
        arc: arc(&rt, 0, WHOLE),
        group: FIRST,
    }];
    let wanted = [(BEHIND_A, 2_667_577_343, FIRST), (0, 1_627_389_953, FIRST)];
    let whole = arc(&rt, BEHIND_A, WHOLE);
    let inside = arc(&rt, BEHIND_A, 10);
    assert!(rt; has_parts(&rt, rt.alloc(), &ring, whole, &wanted));
    assert!(rt; has_parts(&rt, rt.alloc(), &ring, inside, &[(BEHIND_A, 10, FIRST)]));
}

#[test]
fn an_arc_once_round_two_groups_ends_in_the_first(rt: HostRuntime) {
    let ring = [
        Cut {
            arc: arc(&rt, HALF, 2_147_483_648),
            group: SECOND,
        },
        Cut {
            arc: arc(&rt, 0, 2_147_483_648),
            group: FIRST,
        },
    ];
    let wanted = [
        (BEHIND_A, 520_093_695, FIRST),
        (HALF, 2_147_483_648, SECOND),
        (0, 1_627_389_953, FIRST),
    ];
    assert!(rt; has_parts(&rt, rt.alloc(), &ring, arc(&rt, BEHIND_A, WHOLE), &wanted));
}
