//! The lines of groups, and the records of the groups.
ghost use Rattle.std.specs.Prelude.{◌≡◌, ◌<◌, ◌≤◌, ◌==◌, ◌∷◌, length, map, IfOk};
ghost use Rattle.std.specs.List.{list_any};
ghost use Rattle.sc_scenario.specs.scenario.Groups.{nodes_with, has_repeat, joined_by, joined_by_all, set_of, group_at, name_at, place_right, place_left, link_at, way, arc_at, base_at, bases_of};

use crate::scenario::drafts::GroupLine;
use crate::scenario::scenarios::GroupList;
use sc_base::{Draw, MOST_NODES, Members, OutOfMemory, Pairs, RingArc, SeenList, Sequence};
use sc_texts::count_in;
use sc_words::{Base, Core, Link, Lock};
use std::alloc::Global;

const MOST_NAMES: usize = 4_294_967_294;

/// Returns the nodes followed by those that these words spell, or `None` where one spells no node.
pub(crate) fn nodes_with(
    nodes: Sequence<u16>,
    words: &[&[u8]],
) -> Result<Option<Sequence<u16>>, OutOfMemory>
    ensures { IfOk result
        (λ more. more ≡ nodes_with nodes (map (λ word. word.now) words.now)) }
{
    let mut so_far = nodes;
    for word in words {
        match count_in(word, MOST_NODES) {
            Some(node) => so_far.push(node as u16)?,
            None => return Ok(None),
        }
    }
    Ok(Some(so_far))
}

// Returns whether a node is one of these.
fn is_among(nodes: &[u16], node: u16) -> bool
    ensures { result ≡ list_any (λ other. other == node) nodes.now }
{
    nodes.iter().any(|other| *other == node)
}

/// Returns whether a node occurs twice.
pub(crate) fn has_repeat(nodes: &[u16]) -> bool
    ensures { result ≡ has_repeat nodes.now }
{
    for (i, node) in nodes.iter().enumerate() {
        if is_among(&nodes[i + 1..], *node) {
            return true;
        }
    }
    false
}

/// Returns whether one of this node and the others occurs twice.
pub(crate) fn have_repeat(node: u16, others: &[u16]) -> bool
    ensures { result ≡ has_repeat (node ∷ others.now) }
{
    is_among(others, node) || has_repeat(others)
}

fn joined_by(members: Members, node: u16) -> Members
    ensures { result ≡ joined_by members node }
{
    let mut more = members;
    match more.add(node) {
        Ok(()) => more,
        Err(_) => more,
    }
}

/// Returns the set of a node and others. After nine members further nodes are left out.
pub(crate) fn set_of(node: u16, others: &[u16]) -> Members
    ensures { result ≡ set_of node others.now }
{
    let mut members = Members::one(node);
    for other in others {
        members = joined_by(members, *other);
    }
    members
}

fn place_right(lines: &[GroupLine], k: usize) -> usize
    requires { k < length lines.now }
    ensures same { result ≡ place_right lines.now k }
    ensures within { result < length lines.now }
{
    if k + 1 == lines.len() { 0 } else { k + 1 }
}

fn place_left(lines: &[GroupLine], k: usize) -> usize
    requires { k < length lines.now }
    ensures same { result ≡ place_left lines.now k }
    ensures within { result < length lines.now }
{
    if k == 0 { lines.len() - 1 } else { k - 1 }
}

fn name_at(k: usize) -> Draw
    requires { k < 4294967295 }
    ensures { result ≡ name_at k }
{
    Draw {
        node: 0,
        count: k as u32 + 1,
    }
}

fn members_at(lines: &[GroupLine], k: usize) -> Members
    requires { k < length lines.now }
    ensures { result ≡ (group_at lines.now k).members }
{
    lines[k].members
}

fn lo_at(lines: &[GroupLine], k: usize) -> u32
    requires { k < length lines.now }
    ensures { result ≡ (group_at lines.now k).lo }
{
    lines[k].lo
}

fn link_at(lines: &[GroupLine], k: usize) -> Link
    requires within { k < length lines.now }
    requires few { length lines.now ≤ 4294967294 }
    ensures { result ≡ link_at lines.now k }
{
    Link {
        group: name_at(k),
        members: members_at(lines, k),
    }
}

// Returns how far it is round the circle from one position to the next start, which is the whole
// circle where both are the same.
fn way(lo: u32, next: u32) -> u64
    ensures same { result ≡ way lo next }
    ensures some { 1 ≤ result }
    ensures most { result ≤ 4294967296 }
{
    if next <= lo {
        next as u64 + (1 << 32) - lo as u64
    } else {
        (next - lo) as u64
    }
}

fn arc_at(lines: &[GroupLine], k: usize) -> RingArc
    requires { k < length lines.now }
    ensures { result ≡ arc_at lines.now k }
{
    let lo = lo_at(lines, k);
    let next = lo_at(lines, place_right(lines, k));
    let Ok(arc) = RingArc::try_new(lo, way(lo, next)) else {
        unreachable!()
    };
    arc
}

fn base_at(alloc: Global, lines: &[GroupLine], k: usize) -> Base
    requires within { k < length lines.now }
    requires few { length lines.now ≤ 4294967294 }
    ensures { result ≡ base_at lines.now k }
{
    let members = members_at(lines, k);
    Base {
        core: Core {
            id: name_at(k),
            first: members.least(),
            arc: arc_at(lines, k),
            members,
            succ: link_at(lines, place_right(lines, k)),
            pred: link_at(lines, place_left(lines, k)),
            lock: Lock::Free,
            begun: 0,
            decided: Sequence::new(alloc),
            voted: Sequence::new(alloc),
            born: Sequence::new(alloc),
            gone: None,
        },
        pairs: Pairs::new(alloc),
        clients: SeenList::new(alloc),
    }
}

/// Returns the records of the groups with these lines. Returns `OutOfMemory` also for more lines
/// than there are names, which no memory holds.
#[tactic(auto, using(crate::proofs::ScenarioProofs::Records::bases_next))]
pub fn bases_of(alloc: Global, lines: &[GroupLine]) -> Result<GroupList, OutOfMemory>
    ensures { IfOk result (λ bases. bases ≡ bases_of lines.now) }
{
    if lines.len() > MOST_NAMES {
        return Err(OutOfMemory);
    }
    let mut bases = Sequence::new(alloc);
    for k in 0..lines.len() {
        bases.push(base_at(alloc, lines, k))?;
    }
    Ok(bases)
}
