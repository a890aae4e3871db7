use crate::starts::nodes;
use sc_base::{Draw, Members, Pairs, RingArc, SeenList, Sequence, same_draw};
use sc_group_parts::{
    Decision, can_merge, can_migrate, can_repart, check, decide, gained_arc, lost_arc, plan_merge,
    plan_migrate, plan_repart, vote, welcomed_members,
};
use sc_words::{Body, Command, Core, Frozen, Link, Lock, No, Offer};
use std::alloc::Global;
use std::mem::forget;
use std::process::Abort;

const FIRST: Draw = Draw { node: 0, count: 1 };

const SECOND: Draw = Draw { node: 0, count: 2 };

const TX: Draw = Draw { node: 1, count: 1 };

// The middle of the ring.
const MIDDLE: u32 = 2147483648;

fn half_arc(rt: &impl Abort, lo: u32) -> RingArc {
    RingArc::try_new(lo, MIDDLE as u64).expect(rt, "half the ring")
}

fn link(group: Draw, members: Members) -> Link {
    Link { group, members }
}

// Returns a group with this arc and these members, and the other group as both neighbours.
fn core_on(alloc: Global, arc: RingArc, members: Members, lock: Lock) -> Core {
    Core {
        id: FIRST,
        first: 1,
        arc,
        members,
        succ: link(SECOND, members),
        pred: link(SECOND, members),
        lock,
        begun: 0,
        decided: Sequence::new(alloc),
        voted: Sequence::new(alloc),
        born: Sequence::new(alloc),
        gone: None,
    }
}

// Returns a free group on one half of the ring with these members.
fn half(rt: &impl Abort, alloc: Global, lo: u32, members: Members) -> Core {
    core_on(alloc, half_arc(rt, lo), members, Lock::Free)
}

// Returns the record of the other half, as it was frozen. Its successor is the first group.
fn other_half(rt: &impl Abort, alloc: Global, members: Members) -> Frozen {
    Frozen {
        arc: half_arc(rt, MIDDLE),
        members,
        succ: link(FIRST, members),
        pairs: Pairs::new(alloc),
        clients: SeenList::new(alloc),
    }
}

fn offer(rt: &impl Abort, members: Members, body: Body) -> Offer {
    Offer {
        coord: FIRST,
        part: SECOND,
        arc: half_arc(rt, 0),
        members,
        body,
        by: 1,
    }
}

// The start of an arc, and its length.
type Place = (u32, u64);

fn place(arc: RingArc) -> Place {
    (arc.lo(), arc.len())
}

// Returns the arc that a group has after the boundary moved, and the one that changed hands.
fn moved(
    rt: &impl Abort,
    alloc: Global,
    core: &Core,
    at: u32,
    frozen: &Frozen,
) -> (RingArc, RingArc) {
    assert!(rt; can_repart(core, at, frozen));
    let (after, arc) = plan_repart(alloc, core, at, frozen).expect(rt, "memory");
    let kept = after.arc;
    forget(after);
    (kept, arc)
}

// Returns the arc that the first half has after the boundary moved, and the one that changed hands.
fn moved_of_half(rt: &impl Abort, alloc: Global, at: u32) -> (RingArc, RingArc) {
    let core = half(rt, alloc, 0, Members::one(1));
    let frozen = other_half(rt, alloc, Members::one(2));
    let arcs = moved(rt, alloc, &core, at, &frozen);
    forget(core);
    forget(frozen);
    arcs
}

// Returns the arc that the second half has after the boundary moved.
fn other_arc(rt: &impl Abort, alloc: Global, at: u32) -> RingArc {
    let core = half(rt, alloc, MIDDLE, Members::one(2));
    let offer = offer(rt, Members::one(1), Body::Repart { at });
    let arc = if at < MIDDLE {
        gained_arc(&core, &offer, at)
    } else {
        lost_arc(&core, at)
    };
    forget(core);
    arc.expect(rt, "an arc that can be made")
}

// Returns the arcs of the first half, of the part that changed hands, and of the second half after
// the boundary moved.
fn places_after(rt: &impl Abort, alloc: Global, at: u32) -> [Place; 3] {
    let (kept, piece) = moved_of_half(rt, alloc, at);
    [place(kept), place(piece), place(other_arc(rt, alloc, at))]
}

const BEFORE_MIDDLE: [Place; 3] = [
    (0, 1677721600),
    (1677721600, 469762048),
    (1677721600, 2617245696),
];

const BEHIND_MIDDLE: [Place; 3] = [
    (0, 3000000000),
    (MIDDLE, 852516352),
    (3000000000, 1294967296),
];

#[test]
fn repart_plans(rt: HostRuntime) {
    let before = places_after(&rt, rt.alloc(), 1677721600);
    let after = places_after(&rt, rt.alloc(), 3000000000);
    assert!(rt; before == BEFORE_MIDDLE);
    assert!(rt; after == BEHIND_MIDDLE);
}

// Returns the number of the cause for which a transaction is refused, or 0 where it is accepted.
fn begin_code(core: &Core, body: Body) -> u8 {
    let command = Command::Begin {
        tx: TX,
        body,
        order: 1,
    };
    let code = match check(core, &command) {
        Ok(()) => 0,
        Err(why) => why.code(),
    };
    forget(command);
    code
}

#[test]
fn transactions_are_refused_at_the_ends_and_for_members(rt: HostRuntime) {
    let core = half(&rt, rt.alloc(), 0, Members::one(1));
    let codes = [
        begin_code(&core, Body::Repart { at: 0 }),
        begin_code(&core, Body::Repart { at: MIDDLE }),
        begin_code(&core, Body::Repart { at: 1 }),
        begin_code(&core, Body::Migrate { node: 2 }),
        begin_code(&core, Body::Migrate { node: 1 }),
        begin_code(&core, Body::Merge),
    ];
    forget(core);
    assert!(rt; codes == [4, 4, 0, 6, 7, 0]);
}

// Returns the name of a group's vote on a merge with a group of the members 1 to 5.
fn merge_vote(rt: &impl Abort, core: &Core) -> &'static str {
    let offer = offer(rt, nodes(1, 5), Body::Merge);
    match vote(core, &offer) {
        Ok(()) => "yes",
        Err(No::Busy { tx }) => if same_draw(tx, TX) {
            "busy"
        } else {
            "busy with another"
        },
        Err(No::Gone) => "gone",
        Err(No::Apart) => "apart",
        Err(No::TooMany { n }) => if n == 10 { "ten" } else { "too many" },
    }
}

// Returns the name of the vote of a free group with these members.
fn free_vote(rt: &impl Abort, alloc: Global, lo: u32, first: u16, last: u16) -> &'static str {
    let core = half(rt, alloc, lo, nodes(first, last));
    let word = merge_vote(rt, &core);
    forget(core);
    word
}

#[test]
fn votes(rt: HostRuntime) {
    for (lo, first, last, word) in [
        (MIDDLE, 6, 10, "ten"),
        (MIDDLE, 5, 9, "yes"),
        (5, 5, 9, "apart"),
    ] {
        assert!(rt; free_vote(&rt, rt.alloc(), lo, first, last) == word);
    }
}

// Returns a group that is promised to a transaction.
fn promised(rt: &impl Abort, alloc: Global) -> Core {
    let lock = Lock::Promised {
        tx: TX,
        offer: offer(rt, Members::one(1), Body::Merge),
    };
    core_on(alloc, half_arc(rt, MIDDLE), nodes(5, 9), lock)
}

#[test]
fn a_locked_group_votes_no(rt: HostRuntime) {
    let core = promised(&rt, rt.alloc());
    let word = merge_vote(&rt, &core);
    let decision = decide(&core, TX);
    forget(core);
    assert!(rt; word == "busy");
    assert!(rt; decision == Decision::Undecided);
}

// Returns the arc, the members and the successor of a group after a merge with a frozen one.
fn merged(
    rt: &impl Abort,
    alloc: Global,
    core: &Core,
    frozen: &Frozen,
) -> (RingArc, Members, Link) {
    assert!(rt; can_merge(core, frozen));
    let after = plan_merge(alloc, core, frozen).expect(rt, "memory");
    let merged = (after.arc, after.members, after.succ);
    forget(after);
    merged
}

fn merged_halves(rt: &impl Abort, alloc: Global) -> (RingArc, Members, Link) {
    let core = half(rt, alloc, 0, nodes(1, 5));
    let frozen = other_half(rt, alloc, nodes(5, 9));
    let merged = merged(rt, alloc, &core, &frozen);
    forget(core);
    forget(frozen);
    merged
}

#[test]
fn a_merge_closes_the_ring(rt: HostRuntime) {
    let (arc, members, succ) = merged_halves(&rt, rt.alloc());
    assert!(rt; place(arc) == (0, 0x1_0000_0000));
    assert!(rt; members == nodes(1, 9) && succ.members == members);
    assert!(rt; same_draw(succ.group, FIRST));
}

// Returns the members of a group after node 3 left it for its successor, and those of the
// successor.
fn migrated(rt: &impl Abort, alloc: Global, core: &Core, frozen: &Frozen) -> (Members, Members) {
    assert!(rt; can_migrate(core, 3, frozen));
    let after = plan_migrate(alloc, core, 3, frozen).expect(rt, "memory");
    let (members, succ) = (after.members, after.succ);
    forget(after);
    (members, succ.members)
}

#[test]
fn a_member_moves_on(rt: HostRuntime) {
    let core = half(&rt, rt.alloc(), 0, nodes(1, 3));
    let frozen = other_half(&rt, rt.alloc(), nodes(4, 5));
    let (left, joined) = migrated(&rt, rt.alloc(), &core, &frozen);
    let welcomed = welcomed_members(&core, 3);
    forget(core);
    forget(frozen);
    assert!(rt; left == nodes(1, 2) && joined == nodes(3, 5));
    assert!(rt; welcomed == Some(nodes(1, 3)));
}
