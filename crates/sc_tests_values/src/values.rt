//! Small values for several kinds of tests.
use sc_base::{Dup, Key, Noted, Op, Pairs, Reply, SeenList, Value};
use sc_words::Command;
use std::alloc::Global;
use std::mem::forget;
use std::process::Abort;

pub(crate) fn key(rt: &impl Abort, alloc: Global, bytes: &[u8]) -> Key {
    Key::try_new(alloc, bytes).expect(rt, "a key")
}

pub(crate) fn value(rt: &impl Abort, alloc: Global, bytes: &[u8]) -> Value {
    Value::try_new(alloc, bytes).expect(rt, "a value")
}

pub(crate) fn put(rt: &impl Abort, alloc: Global, name: &[u8], new: &[u8]) -> Op {
    Op::Put {
        key: key(rt, alloc, name),
        value: value(rt, alloc, new),
    }
}

pub(crate) fn get(rt: &impl Abort, alloc: Global, name: &[u8]) -> Op {
    Op::Get {
        key: key(rt, alloc, name),
    }
}

// Returns the first request of client 1, which counts 8 bytes: three of its key and five of its
// value.
pub(crate) fn call(rt: &impl Abort, alloc: Global) -> Command {
    Command::Call {
        client: 1,
        seq: 1,
        op: put(rt, alloc, b"key", b"value"),
    }
}

/// Returns the reply with this old value.
pub(crate) fn reply(rt: &impl Abort, alloc: Global, old: &[u8]) -> Reply {
    Reply {
        old: Some(value(rt, alloc, old)),
    }
}

/// Returns whether a reply has this old value.
pub(crate) fn has_old(reply: &Reply, old: Option<&[u8]>) -> bool {
    match (&reply.old, old) {
        (None, None) => true,
        (Some(value), Some(bytes)) => value.bytes() == bytes,
        _ => false,
    }
}

/// Returns the pair of the key `a` and this value.
pub(crate) fn pair(rt: &impl Abort, alloc: Global, new: &[u8]) -> Pairs {
    let mut pairs = Pairs::new(alloc);
    pairs
        .push(key(rt, alloc, b"a"), value(rt, alloc, new))
        .expect(rt, "memory");
    pairs
}

/// Returns the list of one client, with the number of its request and a reply.
pub(crate) fn seen(
    rt: &impl Abort,
    alloc: Global,
    client: u16,
    seq: u32,
    reply: Reply,
) -> SeenList {
    let mut seen = SeenList::new(alloc);
    seen.push(client, Noted { seq, reply }).expect(rt, "memory");
    seen
}

/// Returns whether a copy of a value equals it. Neither is dropped: the process ends soon.
pub(crate) fn is_copied<T: Dup + PartialEq + Drop>(
    rt: &impl Abort,
    alloc: Global,
    value: T,
) -> bool {
    let copy = value.dup(alloc).expect(rt, "memory");
    let is_same = copy == value;
    forget(copy);
    forget(value);
    is_same
}
