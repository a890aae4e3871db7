//! The groups that a client knows.
ghost use Rattle.std.specs.Prelude.{◌≡◌, ◌∷◌, ◌++◌, [], ◌<◌, ◌≤◌, IsOk, IfOk, OnOk, OnErr, None, Some, is_some, true, length};
ghost use Rattle.std.specs.Map.{set_value};
ghost use Rattle.indexmap.specs.IndexMap.{spare};
ghost use Rattle.sc_base.specs.Same.{same_draw};
ghost use Rattle.sc_client_table.specs.lookup.Ways.{new_way};
ghost use Rattle.sc_client_table.specs.lookup.Known.{way_to, chosen, target_in, next_in, better, preferring, passed_on, starting, group_learnt, learnt_from_not_mine, learnt_from_gone};

use crate::lookup::ways::Way;
use indexmap::IndexMap;
use sc_base::{Draw, Members, OutOfMemory, RingArc};
use sc_words::{Link, Route};
use std::alloc::Global;
use std::marker::Model;

/// The groups that a client knows, at least one, in the order in which it got to know them.
/// Contracts see the list.
#[derive(Drop)]
pub struct Routes {
    known: IndexMap<Draw, Way>,
}

impl Model for Routes {
    ghost use Rattle.std.specs.Prelude.{◌≤◌, length};
    ghost use Rattle.sc_client_table.specs.lookup.Known.{KnownGroups};

    ghost Value = { KnownGroups };

    ghost view = { λ r. r.known.entries };

    ghost invariant = { λ r. 1 ≤ length r.known.entries };
}

impl Routes {
    /// Returns the routes of a client that knows one group.
    pub fn start(alloc: Global, route: Route) -> Result<Routes, OutOfMemory>
        ensures { IfOk result
            (λ routes. routes ≡ (route.group, new_way route.lo route.members) ∷ []) }
    {
        let mut known = IndexMap::new(alloc);
        known.insert(route.group, Way::new(route.lo, route.members))?;
        Ok(Routes { known })
    }

    /// Returns the group whose start is nearest at or before the position on the ring, and of
    /// several at one distance the last in the list.
    pub fn choose(&self, p: u32) -> Draw
        ensures { chosen p self.now ≡ Some result }
    {
        let mut best = None;
        for (group, way) in self.known.iter() {
            best = Some(better(p, best, *group, *way));
        }
        match best {
            Some((group, _way)) => group,
            None => Draw { node: 0, count: 0 },
        }
    }

    /// Returns the node of the group to be asked, or `None` exactly where the group is not known.
    pub fn target(&self, group: Draw) -> Option<u16>
        ensures { result ≡ target_in group self.now }
    {
        match way_to(&self.known, group) {
            Some(way) => Some(way.target()),
            None => None,
        }
    }

    /// Makes the member after the group's target the preferred node, and returns it. Returns
    /// `None` exactly where the group is not known, and then the routes are unchanged.
    pub fn after(&mut self, group: Draw) -> Option<u16>
        ensures node { result ≡ next_in group self.old }
        ensures routes { self.new ≡ passed_on group self.old }
    {
        match way_to(&self.known, group) {
            Some(way) => {
                let next = way.next();
                let preferred = Some(next);
                set_way(&mut self.known, group, Way { preferred, ..way });
                Some(next)
            }
            None => None,
        }
    }

    /// Makes a node the preferred one of the group. Returns `false` exactly where the group is not
    /// known, and then the routes are unchanged.
    pub fn prefer(&mut self, group: Draw, node: u16) -> bool
        ensures known { result ≡ is_some (way_to group self.old) }
        ensures routes { self.new ≡ preferring group node self.old }
    {
        match way_to(&self.known, group) {
            Some(way) => {
                let preferred = Some(node);
                set_way(&mut self.known, group, Way { preferred, ..way });
                true
            }
            None => false,
        }
    }

    /// Follows a group's answer that a key is not its own: the group's arc starts where `arc`
    /// does, and its successor's at the end of `arc`. A successor that was not known is added at
    /// the end of the list. Fails only where the successor was not known.
    pub fn not_mine(&mut self, group: Draw, arc: &RingArc, succ: &Link) -> Result<(), OutOfMemory>
        ensures routes { OnOk result (self.new ≡ learnt_from_not_mine group arc.now succ.now self.old) }
        ensures known { is_some (way_to succ.now.group self.old) ≡ true → IsOk result }
    {
        start_at(&mut self.known, group, arc.lo());
        learn(&mut self.known, succ.group, arc.end(), succ.members)
    }

    /// Follows a group's answer that it was merged into another: its route is removed, and the
    /// others keep their order. The other group's arc starts at the start of `into`; a group that
    /// was not known is added at the end of the list.
    pub fn gone(&mut self, group: Draw, into: &Route) -> Result<(), OutOfMemory>
        ensures { OnOk result (self.new ≡ learnt_from_gone group into.now self.old) }
    {
        self.known.reserve(1)?;
        self.known.shift_remove(&group);
        learn(&mut self.known, into.group, into.lo, into.members)
    }
}

/// Returns the nearer of the best group so far and another, and the other one where both are as
/// far.
fn better(p: u32, best: Option<(Draw, Way)>, group: Draw, way: Way) -> (Draw, Way)
    ensures { better p best (group, way) ≡ Some result }
{
    match best {
        Some((best_group, best_way)) => {
            if way.far(p) <= best_way.far(p) {
                (group, way)
            } else {
                (best_group, best_way)
            }
        }
        None => (group, way),
    }
}

fn way_to(known: &IndexMap<Draw, Way>, group: Draw) -> Option<Way>
    ensures { result ≡ way_to group known.now.entries }
{
    match known.get(&group) {
        Some(way) => Some(*way),
        None => None,
    }
}

/// Replaces what is known of a group; changes nothing where it is not known.
fn set_way(known: &mut IndexMap<Draw, Way>, group: Draw, way: Way)
    ensures entries { known.new.entries ≡ set_value (same_draw group) known.old.entries way }
    ensures len { length known.new.entries ≡ length known.old.entries }
{
    if let Some(place) = known.get_mut(&group) {
        *place = way;
    }
}

/// Sets the start of a known group's arc.
fn start_at(known: &mut IndexMap<Draw, Way>, group: Draw, lo: u32)
    ensures entries { known.new.entries ≡ starting group lo known.old.entries }
    ensures same { (other : Draw) → is_some (way_to other known.new.entries) ≡ is_some (way_to other known.old.entries) }
    ensures len { length known.new.entries ≡ length known.old.entries }
{
    if let Some(way) = way_to(known, group) {
        set_way(known, group, Way { lo, ..way });
    }
}

/// Adds a group that was not known at the end of the list. Allocates nothing where there is room.
fn add(known: &mut IndexMap<Draw, Way>, group: Draw, way: Way) -> Result<(), OutOfMemory>
    requires { way_to group known.old.entries ≡ None }
    ensures ok { OnOk result (known.new.entries ≡ known.old.entries ++ (group, way) ∷ []) }
    ensures err { OnErr result (known.new.entries ≡ known.old.entries) }
    ensures room { 0 < spare known.old → IsOk result }
{
    known.insert(group, way)?;
    Ok(())
}

/// Sets the start of a known group's arc, or adds a group that was not known. Allocates nothing
/// where there is room.
fn learn(
    known: &mut IndexMap<Draw, Way>,
    group: Draw,
    lo: u32,
    members: Members,
) -> Result<(), OutOfMemory>
    ensures ok { OnOk result (known.new.entries ≡ group_learnt group lo members known.old.entries) }
    ensures err { OnErr result (known.new.entries ≡ known.old.entries) }
    ensures some { 1 ≤ length known.old.entries → 1 ≤ length known.new.entries }
    ensures room { 0 < spare known.old → IsOk result }
    ensures known { is_some (way_to group known.old.entries) ≡ true → IsOk result }
{
    match way_to(known, group) {
        Some(way) => {
            set_way(known, group, Way { lo, ..way });
            Ok(())
        }
        None => add(known, group, Way::new(lo, members)),
    }
}
