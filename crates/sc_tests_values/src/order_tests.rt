ghost use Rattle.std.specs.Prelude.{◌≡◌, true};
ghost use Rattle.sc_group_parts.specs.transactions.Checked.{is_checked};

use crate::groups::{CHILD, GROUP, OTHER, group};
use sc_base::{Draw, RingArc, Sequence};
use sc_group_parts::check;
use sc_words::{Body, Command, Core, Lock};
use std::alloc::Global;
use std::mem::forget;
use std::process::Abort;

/// An order to a group: a node that joins or leaves, or a boundary to split at.
#[derive(Clone, Copy)]
enum Ask {
    Join(u16),
    Leave(u16),
    Split(u32),
}

/// A group on the positions from 100 to 199: its number of members, its neighbour, and how many
/// transactions it has begun.
type Asked = (u16, Draw, u32);

fn command(ask: Ask) -> Command
    ensures { is_checked result ≡ true }
{
    match ask {
        Ask::Join(node) => Command::Join { node, order: 1 },
        Ask::Leave(node) => Command::Leave { node, order: 1 },
        Ask::Split(at) => Command::Split {
            at,
            child: CHILD,
            order: 1,
        },
    }
}

/// Returns the number of the cause for which the group refuses the order, or 0 where it accepts it.
/// With `is_locked` the group coordinates a merge.
fn answer(rt: &impl Abort, alloc: Global, asked: Asked, is_locked: bool, ask: Ask) -> u8 {
    let arc = RingArc::try_new(100, 100).expect(rt, "an arc");
    let (last, neighbour, begun) = asked;
    let decided = Sequence::new(alloc);
    let mut core = group(alloc, last, arc, neighbour, Lock::Free, decided);
    core.begun = begun;
    if is_locked {
        core.lock = Lock::Coordinating {
            tx: CHILD,
            body: Body::Merge,
            order: 1,
            heard: None,
        };
    }
    let command = command(ask);
    let code = match check(&core, &command) {
        Ok(()) => 0,
        Err(why) => why.code(),
    };
    forget(command);
    forget(core);
    code
}

/// A group, an order to it, and the number of the refusal.
type Row = (Asked, Ask, u8);

/// Gives each order to a free group, and checks its answer.
fn check_all(rt: &impl Abort, alloc: Global, rows: &[Row]) {
    for (asked, ask, code) in rows {
        assert!(rt; answer(rt, alloc, *asked, false, *ask) == *code);
    }
}

const JOINS: &[Row] = &[
    ((8, GROUP, 0), Ask::Join(9), 0),
    ((9, GROUP, 0), Ask::Join(10), 5),
    ((9, GROUP, 0), Ask::Join(9), 9),
    ((1, GROUP, 0), Ask::Join(1), 9),
    ((1, GROUP, 0), Ask::Join(2), 0),
];

#[test]
fn joins_are_refused_at_nine_members_and_to_members(rt: HostRuntime) {
    check_all(&rt, rt.alloc(), JOINS);
}

const LEAVES: &[Row] = &[
    ((1, GROUP, 0), Ask::Leave(2), 6),
    ((1, GROUP, 0), Ask::Leave(1), 7),
    ((2, GROUP, 0), Ask::Leave(3), 6),
    ((2, GROUP, 0), Ask::Leave(1), 0),
];

#[test]
fn leaves_are_refused_to_strangers_first_and_to_the_last_member(rt: HostRuntime) {
    check_all(&rt, rt.alloc(), LEAVES);
}

const SPLITS: &[Row] = &[
    ((1, OTHER, 256), Ask::Split(100), 4),
    ((1, OTHER, 256), Ask::Split(200), 4),
    ((1, GROUP, 0), Ask::Split(99), 4),
    ((1, OTHER, 256), Ask::Split(101), 7),
    ((2, OTHER, 256), Ask::Split(101), 8),
    ((2, OTHER, 255), Ask::Split(101), 0),
    ((2, GROUP, 256), Ask::Split(101), 0),
    ((2, GROUP, 0), Ask::Split(199), 0),
];

#[test]
fn splits_are_refused_for_boundary_members_and_transactions_in_this_order(rt: HostRuntime) {
    check_all(&rt, rt.alloc(), SPLITS);
}

#[test]
fn a_locked_group_refuses_before_all_else(rt: HostRuntime) {
    for ask in &[Ask::Join(1), Ask::Leave(2), Ask::Split(100)] {
        assert!(rt; answer(&rt, rt.alloc(), (1, OTHER, 256), true, *ask) == 2);
    }
}
