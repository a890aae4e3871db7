//! Just-in-time search for an order of the requests on one key.
ghost use Rattle.std.specs.Prelude.{◌≡◌, ◌<◌, ◌≤◌, ℕ, true, false, IfOk, OnOk, length, [], ◌∷◌, ◌+◌};
ghost use Rattle.sc_base.specs.Definitions.{Each, Among};
ghost use Rattle.sc_linear.specs.Standing.{start_entry};
ghost use Rattle.sc_linear.specs.Steps.{has_failed};
ghost use Rattle.sc_linear.specs.Moves.{IsMoves, IsSearched, AreTooMany};
ghost use Rattle.sc_linear.specs.Front.{IsFront, move_at};

use crate::places::{Taken, without};
use crate::seen::Seen;
use crate::steps::{explore, keep};
use crate::trail::Trail;
use sc_base::OutOfMemory;
use sc_history::End;
use sc_linear_law::Request;
use std::alloc::Global;

/// What a search found.
#[derive(Drop)]
pub enum Finding {
    /// An order: each request, by its number, with the line at whose event it was taken.
    Found(Vec<(u64, usize)>),
    /// There is no order.
    Nothing,
    /// Just before this line, on which a request is answered, there were too many places.
    TooMany(u64),
}

/// Returns whether a request failed.
fn has_failed(request: &Request) -> bool
    ensures { result ≡ has_failed request.now }
{
    match &request.ending {
        Some((_, End::Fail)) => true,
        None => false,
        Some((_, End::Absent | End::Value(_) | End::Done | End::No | End::Lost)) => false,
    }
}

/// Passes a line on which a request begins: it is under way from there, unless it fails.
fn begin(
    requests: &[Request],
    moves: &[(u64, bool, usize)],
    at: usize,
    under: &mut Vec<usize>,
    seen: &Seen,
    trail: &Trail,
) -> Result<(), OutOfMemory>
    requires moves { IsMoves requests.now moves.now }
    requires at { at < length moves.now }
    requires begins { (move_at moves.now at).1 ≡ false }
    requires front { IsFront requests.now moves.now at under.old.items seen.now trail.now }
    ensures { OnOk result (IsFront requests.now moves.now (at + 1) under.new.items seen.now trail.now) }
{
    let who = moves[at].2;
    if !has_failed(&requests[who]) {
        under.push(who)?;
    }
    Ok(())
}

/// Passes a line on which a request is answered. Returns `false` where there are too many places.
fn end(
    alloc: Global,
    requests: &[Request],
    moves: &[(u64, bool, usize)],
    at: usize,
    most: usize,
    under: &mut Vec<usize>,
    seen: &mut Seen,
    trail: &mut Trail,
) -> Result<bool, OutOfMemory>
    requires moves { IsMoves requests.now moves.now }
    requires at { at < length moves.now }
    requires ends { (move_at moves.now at).1 ≡ true }
    requires front { IsFront requests.now moves.now at under.old.items seen.old trail.old }
    ensures passed { IfOk result (λ passed. passed ≡ true → IsFront requests.now moves.now (at + 1) under.new.items seen.new trail.new) }
    ensures many { IfOk result (λ passed. passed ≡ false → AreTooMany requests.now most (move_at moves.now at).0) }
{
    let (line, _, who) = moves[at];
    if !explore(
        alloc,
        requests,
        under.as_slice(),
        who,
        line,
        most,
        seen,
        trail,
    )? {
        return Ok(false);
    }
    *seen = keep(alloc, seen, who)?;
    *under = without(under.as_slice(), who, alloc)?;
    Ok(true)
}

/// Passes a line. Returns `false` where there are too many places.
fn step(
    alloc: Global,
    requests: &[Request],
    moves: &[(u64, bool, usize)],
    at: usize,
    most: usize,
    under: &mut Vec<usize>,
    seen: &mut Seen,
    trail: &mut Trail,
) -> Result<bool, OutOfMemory>
    requires moves { IsMoves requests.now moves.now }
    requires at { at < length moves.now }
    requires front { IsFront requests.now moves.now at under.old.items seen.old trail.old }
    ensures passed { IfOk result (λ passed. passed ≡ true → IsFront requests.now moves.now (at + 1) under.new.items seen.new trail.new) }
    ensures many { IfOk result (λ passed. passed ≡ false → AreTooMany requests.now most (move_at moves.now at).0) }
{
    if moves[at].1 {
        return end(alloc, requests, moves, at, most, under, seen, trail);
    }
    begin(requests, moves, at, under, seen, trail)?;
    Ok(true)
}

/// Searches for an order of the requests on one key, whose lines these are, with at most `most`
/// places before an end.
pub fn search(
    alloc: Global,
    requests: &[Request],
    moves: &[(u64, bool, usize)],
    most: usize,
) -> Result<Finding, OutOfMemory>
    requires { IsMoves requests.now moves.now }
    ensures { IfOk result (IsSearched requests.now moves.now most) }
{
    let mut trail = Trail::new(alloc);
    let mut under = Vec::new(alloc);
    let mut seen = start(alloc)?;
    for at in 0..moves.len() {
        if !step(
            alloc, requests, moves, at, most, &mut under, &mut seen, &mut trail,
        )? {
            return Ok(Finding::TooMany(moves[at].0));
        }
        if seen.len() == 0 {
            return Ok(Finding::Nothing);
        }
    }
    Ok(Finding::Found(trail.read(seen.path(0), alloc)?))
}

/// Returns the place at which the search starts.
fn start(alloc: Global) -> Result<Seen, OutOfMemory>
    ensures { IfOk result (λ seen. seen ≡ start_entry ∷ []) }
{
    let mut seen = Seen::new(alloc);
    seen.push(Taken::start(alloc), 0)?;
    Ok(seen)
}
