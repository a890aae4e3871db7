use crate::values::{has_old, reply, seen};
use sc_group_parts::{ClientTable, Seen};
use std::alloc::Global;
use std::mem::forget;
use std::process::Abort;

/// A step of a story: a call of a client table, with what it must return.
#[derive(Clone, Copy)]
enum Step {
    /// The table knows a client's request as new, repeated or stale.
    Is(u16, u32, Seen),
    /// Notes a request, which is new, with a reply of this old value.
    Note(u16, u32, &'static [u8]),
    /// Joins a list of one client, with the number of its request and the reply `other`.
    Join(u16, u32),
    /// The reply that is noted for a client has this old value.
    Has(u16, &'static [u8]),
    /// No reply is noted for a client.
    HasNone(u16),
    /// The table lists this many clients.
    Lists(usize),
}

/// Notes a request, which must be new.
fn note(
    rt: &impl Abort,
    alloc: Global,
    table: &mut ClientTable,
    (client, seq): (u16, u32),
    bytes: &[u8],
) {
    assert!(rt; table.seen(client, seq) == Seen::New);
    table
        .note(client, seq, reply(rt, alloc, bytes))
        .expect(rt, "memory");
}

fn has(table: &ClientTable, client: u16, bytes: &[u8]) -> bool {
    match table.reply(client) {
        Some(reply) => has_old(reply, Some(bytes)),
        None => false,
    }
}

fn join(rt: &impl Abort, alloc: Global, table: &mut ClientTable, client: u16, seq: u32) {
    let list = seen(rt, alloc, client, seq, reply(rt, alloc, b"other"));
    table.join(&list).expect(rt, "memory");
    forget(list);
}

fn length(rt: &impl Abort, table: &ClientTable) -> usize {
    let list = table.list().expect(rt, "memory");
    let length = list.len();
    forget(list);
    length
}

fn is_step(rt: &impl Abort, alloc: Global, table: &mut ClientTable, step: Step) -> bool {
    match step {
        Step::Is(client, seq, answer) => table.seen(client, seq) == answer,
        Step::Note(client, seq, bytes) => {
            note(rt, alloc, table, (client, seq), bytes);
            true
        }
        Step::Join(client, seq) => {
            join(rt, alloc, table, client, seq);
            true
        }
        Step::Has(client, bytes) => has(table, client, bytes),
        Step::HasNone(client) => table.reply(client).is_none(),
        Step::Lists(many) => length(rt, table) == many,
    }
}

/// Takes these steps with a new table, one after another.
fn come_true(rt: &impl Abort, alloc: Global, steps: &[Step]) {
    let mut table = ClientTable::new(alloc);
    for step in steps {
        assert!(rt; is_step(rt, alloc, &mut table, *step));
    }
    forget(table);
}

const ASKED: &[Step] = &[
    Step::HasNone(7),
    Step::Note(7, 1, b"x"),
    Step::Is(7, 1, Seen::Again),
    Step::Note(7, 2, b"y"),
    Step::Is(7, 1, Seen::Stale { last: 2 }),
    Step::Has(7, b"y"),
];

#[test]
fn requests_are_new_again_or_stale(rt: HostRuntime) {
    come_true(&rt, rt.alloc(), ASKED);
}

const JOINED: &[Step] = &[
    Step::Note(1, 5, b"own"),
    Step::Note(2, 5, b"own"),
    Step::Note(3, 5, b"own"),
    Step::Join(1, 4),
    Step::Join(2, 5),
    Step::Join(3, 6),
    Step::Join(4, 1),
    Step::Has(1, b"own"),
    Step::Has(2, b"own"),
    Step::Has(3, b"other"),
    Step::Has(4, b"other"),
    Step::Is(1, 5, Seen::Again),
    Step::Lists(4),
];

#[test]
fn tables_join_by_the_greater_number(rt: HostRuntime) {
    come_true(&rt, rt.alloc(), JOINED);
}
