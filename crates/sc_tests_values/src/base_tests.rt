use crate::values::{is_copied, key, pair, reply, seen, value};
use sc_base::{
    Ballot, Dup, Key, KeyError, Op, Pairs, Reply, Same, SeenList, Sequence, Value, dup_found,
};
use std::alloc::Global;
use std::mem::forget;
use std::process::Abort;

// Returns the position of a key, and its number of bytes.
fn placed(rt: &impl Abort, alloc: Global, bytes: &[u8]) -> (u32, usize) {
    let key = key(rt, alloc, bytes);
    let placed = (key.pos(), key.bytes().len());
    forget(key);
    placed
}

#[test]
fn keys_lie_by_their_first_four_bytes(rt: HostRuntime) {
    let places = [
        placed(&rt, rt.alloc(), b"a"),
        placed(&rt, rt.alloc(), b"m"),
        placed(&rt, rt.alloc(), b"abcde"),
    ];
    assert!(rt; places == [(1627389952, 1), (1828716544, 1), (1633837924, 5)]);
}

fn is_bad_key(alloc: Global, bytes: &[u8], error: KeyError) -> bool {
    match Key::try_new(alloc, bytes) {
        Ok(_) => false,
        Err(found) => found == error,
    }
}

fn is_bad_value(alloc: Global, bytes: &[u8], error: KeyError) -> bool {
    match Value::try_new(alloc, bytes) {
        Ok(_) => false,
        Err(found) => found == error,
    }
}

#[test]
fn texts_are_read_up_to_their_limits(rt: HostRuntime) {
    let text = [126u8; 257];
    let (_, longest_key) = placed(&rt, rt.alloc(), &text[..64]);
    let value = value(&rt, rt.alloc(), &text[..256]);
    let longest_value = value.bytes().len();
    forget(value);
    let is_long = is_bad_key(rt.alloc(), &text[..65], KeyError::TooLong { len: 65 });
    let is_bad = is_bad_value(rt.alloc(), b"a\x7f ", KeyError::BadByte { at: 1 });
    assert!(rt; longest_key == 64 && longest_value == 256 && is_long && is_bad);
}

fn compare_and_set(rt: &impl Abort, alloc: Global) -> Op {
    let key = key(rt, alloc, b"k");
    let expect = value(rt, alloc, b"1");
    let value = value(rt, alloc, b"2");
    Op::Cas { key, expect, value }
}

// Returns whether a copy of the reply has the reply's value.
fn is_kept(rt: &impl Abort, alloc: Global, reply: Reply) -> bool {
    let kept = dup_found(Some(&reply), alloc).expect(rt, "memory");
    let is_kept = kept.as_ref() == Some(&reply);
    forget(kept);
    forget(reply);
    is_kept
}

#[test]
fn operations_and_replies_are_copied(rt: HostRuntime) {
    let operation = compare_and_set(&rt, rt.alloc());
    let reply = reply(&rt, rt.alloc(), b"1");
    assert!(rt; is_copied(&rt, rt.alloc(), operation) && is_kept(&rt, rt.alloc(), reply));
}

// Returns a list of two ballots, the first of which has this round.
fn ballots(rt: &impl Abort, alloc: Global, round: u32) -> Sequence<Ballot> {
    let mut ballots = Sequence::new(alloc);
    ballots.push(Ballot { round, node: 3 }).expect(rt, "memory");
    ballots
        .push(Ballot { round: 2, node: 1 })
        .expect(rt, "memory");
    ballots
}

#[test]
fn lists_are_pushed_copied_and_given_back(rt: HostRuntime) {
    let list = ballots(&rt, rt.alloc(), 1);
    let copy = list.dup(rt.alloc()).expect(&rt, "memory");
    let items = Sequence::from_vec(copy.into_vec()).into_vec();
    let is_so = items.len() == 2 && items[1] == Ballot { round: 2, node: 1 };
    forget(list);
    forget(items);
    assert!(rt; is_so);
}

// Returns whether a copy of a list of one pair has one pair with this value.
fn has_copy_of_pair(rt: &impl Abort, alloc: Global, pairs: &Pairs, value: &[u8]) -> bool {
    let copy = pairs.dup(alloc).expect(rt, "memory");
    let is_so = copy.len() == 1 && copy.at(0).1.bytes() == value && copy.is_same(pairs);
    forget(copy);
    is_so
}

// Returns whether a copy of a list of one client's request has one entry with this number.
fn has_copy_of_seen(rt: &impl Abort, alloc: Global, seen: &SeenList, seq: u32) -> bool {
    let copy = seen.dup(alloc).expect(rt, "memory");
    let is_so = copy.len() == 1 && copy.at(0).1.seq == seq && copy.is_same(seen);
    forget(copy);
    is_so
}

#[test]
fn pairs_and_seen_requests_are_pushed_and_copied(rt: HostRuntime) {
    let pairs = pair(&rt, rt.alloc(), b"1");
    let seen = seen(&rt, rt.alloc(), 7, 3, Reply { old: None });
    let is_pair = has_copy_of_pair(&rt, rt.alloc(), &pairs, b"1");
    let is_seen = has_copy_of_seen(&rt, rt.alloc(), &seen, 3);
    forget(pairs);
    forget(seen);
    assert!(rt; is_pair && is_seen);
}

// Returns whether the list of two ballots that begins with round 1 equals the one that begins with
// this round.
fn are_same(rt: &impl Abort, alloc: Global, round: u32) -> bool {
    let (list, other) = (ballots(rt, alloc, 1), ballots(rt, alloc, round));
    let are_same = list.is_same(&other);
    forget(list);
    forget(other);
    are_same
}

#[test]
fn lists_are_the_same_where_each_item_is(rt: HostRuntime) {
    let same = are_same(&rt, rt.alloc(), 1);
    let other = are_same(&rt, rt.alloc(), 2);
    assert!(rt; same && !other && Some((1u32, true)).is_same(&Some((1u32, true))));
}
