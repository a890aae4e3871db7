use crate::values::{is_copied, key, value};
use sc_base::{Op, Reply};
use sc_words::Entry;

#[test]
fn entries_are_copied(rt: HostRuntime) {
    let key = key(&rt, rt.alloc(), b"a");
    let value = value(&rt, rt.alloc(), b"1");
    let entry = Entry {
        client: 1,
        seq: 2,
        op: Op::Add { key, value },
        reply: Reply { old: None },
    };
    assert!(rt; is_copied(&rt, rt.alloc(), entry));
}
