//! Arcs, sets of nodes, pairs of keys and values, and client tables, read from JSON.
ghost use Rattle.std.specs.Prelude.{◌≡◌, ℕ, List, IfOk, IfSome, Some, IsTrue, ◌↔◌};
ghost use Rattle.serde_json.specs.View.{view, items_view};
ghost use Rattle.sc_base.specs.Among.{Each};
ghost use Rattle.sc_base.specs.Ascending.{IsAscending, EndsBelow};
ghost use Rattle.sc_base.specs.declared.ops.Noted.{Noted};
ghost use Rattle.sc_base.specs.Roster.{IsRoster};
ghost use Rattle.sc_json_text.specs.rows.Held.{FitsArc, FitsMembers, FitsU16, PairFits};
ghost use Rattle.sc_json_text.specs.rows.Sets.{arc_json, nodes_json, pairs_json, FitsPairs, client_json, FitsNoted, clients_json, FitsClients};
ghost use Rattle.sc_json_text.specs.rows.Shapes.{items_json};
ghost use Rattle.sc_json_read.specs.Reading.{Finds, Shows};

use crate::errors::RowError;
use crate::from_json::{FromJson, Present};
use crate::items::{pair_in, triple_in};
use crate::lists::items_of;
use sc_base::{Key, Members, Noted, Ordered, OutOfMemory, RingArc, Value};
use serde_json::Value as Json;
use std::alloc::Global;
use std::cmp::Ordering;

impl FromJson for RingArc {
    ghost json_of = { arc_json };

    ghost Fits = { FitsArc };

    #[tactic(auto, unfolding(sc_json_text::specs::rows::Sets::arc_json))]
    fn from_json(alloc: Global, json: &Json) -> Result<RingArc, RowError> {
        let (lo, len) = pair_in(alloc, json)?;
        match RingArc::try_new(lo, len) {
            Ok(arc) => Ok(arc),
            Err(_) => Err(RowError::NoRow),
        }
    }
}

impl Present for RingArc {
    ghost use Rattle.sc_json_read.specs.Presence.{arc_there};

    ghost is_there = { arc_there };
}

/// Returns the set of these nodes, if they are one to nine, ascending.
fn set_of(nodes: &[u16]) -> Option<Members>
    ensures finds { IsRoster nodes.now → result ≡ Some nodes.now }
    ensures exact { IfSome result (λ members. members ≡ nodes.now) }
{
    if nodes.is_empty() {
        return None;
    }
    let mut members = Members::one(nodes[0]);
    for i in 1..nodes.len() {
        if members.add(nodes[i]).is_err() {
            return None;
        }
    }
    if members.as_slice() == nodes {
        Some(members)
    } else {
        None
    }
}

impl FromJson for Members {
    ghost json_of = { nodes_json };

    ghost Fits = { FitsMembers };

    #[tactic(auto, unfolding(sc_json_text::specs::rows::Sets::nodes_json))]
    fn from_json(alloc: Global, json: &Json) -> Result<Members, RowError> {
        let nodes = items_of::<u16>(alloc, json)?;
        match set_of(nodes.as_slice()) {
            Some(members) => Ok(members),
            None => Err(RowError::NoRow),
        }
    }
}

impl Present for Members {
    ghost use Rattle.sc_json_read.specs.Presence.{nodes_there};

    ghost is_there = { nodes_there };
}

fn ends_below<K: Ord, V>(list: &Ordered<K, V>, key: &K) -> bool
    ensures { IsTrue result ↔ EndsBelow K.cmp list.now key.now }
{
    match list.as_slice().last() {
        Some(last) => last.0.cmp(key) == Ordering::Less,
        None => true,
    }
}

/// Returns the list of these entries, if their keys ascend strictly.
fn rising<K: Ord + Drop, V: Drop>(
    alloc: Global,
    entries: Vec<(K, V)>,
) -> Result<Option<Ordered<K, V>>, OutOfMemory>
    ensures finds { IfOk result
        (λ list. IsAscending K.cmp entries.items → list ≡ Some entries.items) }
    ensures exact { IfOk result (λ list. IfSome list (λ kept. kept ≡ entries.items)) }
{
    let mut list = Ordered::new(alloc);
    for (key, value) in entries {
        if !ends_below(&list, &key) {
            return Ok(None);
        }
        list.push(key, value)?;
    }
    Ok(Some(list))
}

impl FromJson for Ordered<Key, Value> {
    ghost json_of = { pairs_json };

    ghost Fits = { FitsPairs };

    #[tactic(auto, unfolding(crate::specs::ParsedJson::pairs_json, crate::specs::ParsedJson::FitsPairs))]
    fn from_json(alloc: Global, json: &Json) -> Result<Ordered<Key, Value>, RowError> {
        let entries = items_of::<(Key, Value)>(alloc, json)?;
        match rising(alloc, entries)? {
            Some(list) => Ok(list),
            None => Err(RowError::NoRow),
        }
    }
}

impl Present for Ordered<Key, Value> {
    ghost use Rattle.sc_json_read.specs.Presence.{pairs_there};

    ghost is_there = { pairs_there };
}

/// Returns the entry of a client table that has this JSON.
#[tactic(auto, unfolding(crate::specs::ParsedJson::client_json, crate::specs::ParsedJson::FitsNoted))]
fn client_from_json(alloc: Global, json: &Json) -> Result<(u16, Noted), RowError>
    ensures finds { (entry : ℕ × Noted) → PairFits FitsU16 FitsNoted entry
        → view json.now ≡ client_json entry → Finds entry result }
    ensures exact { IfOk result (λ entry. view json.now ≡ client_json entry) }
{
    let (client, seq, reply) = triple_in(alloc, json)?;
    Ok((client, Noted { seq, reply }))
}

/// Returns the entries of a client table that have these JSONs.
fn clients_of(alloc: Global, list: &[Json]) -> Result<Vec<(u16, Noted)>, RowError>
    ensures finds { (entries : List (ℕ × Noted)) → Each (PairFits FitsU16 FitsNoted) entries
        → items_view list.now ≡ items_json client_json entries
        → Shows (λ found. found.items) entries result }
    ensures exact { IfOk result (λ found. items_view list.now ≡ items_json client_json found.items) }
{
    let mut entries = Vec::new(alloc);
    for json in list {
        let entry = client_from_json(alloc, json)?;
        entries.push(entry)?;
    }
    Ok(entries)
}

impl FromJson for Ordered<u16, Noted> {
    ghost json_of = { clients_json };

    ghost Fits = { FitsClients };

    #[tactic(auto, using(crate::proofs::Arrays::is_array), unfolding(crate::specs::ParsedJson::clients_json, crate::specs::ParsedJson::FitsClients))]
    fn from_json(alloc: Global, json: &Json) -> Result<Ordered<u16, Noted>, RowError> {
        let Some(list) = json.as_array() else {
            return Err(RowError::NoRow);
        };
        let entries = clients_of(alloc, list.as_slice())?;
        match rising(alloc, entries)? {
            Some(list) => Ok(list),
            None => Err(RowError::NoRow),
        }
    }
}

impl Present for Ordered<u16, Noted> {
    ghost use Rattle.sc_json_read.specs.Presence.{clients_there};

    ghost is_there = { clients_there };
}
