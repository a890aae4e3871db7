//! One end of a request: which places are reached before it, and which of them remain behind it.
ghost use Rattle.std.specs.Prelude.{◌≡◌, ◌<◌, ◌≤◌, ◌⊎◌, ℕ, true, false, not, ◌&&◌, IfOk, IfSome, OnOk, length, is_none};
ghost use Rattle.sc_base.specs.Definitions.{Each, Among};
ghost use Rattle.sc_linear_law.specs.LinearDefinitions.{answer_line};
ghost use Rattle.sc_linear.specs.Standing.{AllLead, IsUnder, Extends, place_at, can_take, with_request, is_seen, has, AreApart};
ghost use Rattle.sc_linear.specs.Steps.{AllTaken, IsReaderAt, CanRead, IsClosedAt, AreClosed, ComeFrom, AreKept, without_request};

use crate::places::Taken;
use crate::registers::{fits, is_idle, is_settled, same_value, value_after};
use crate::seen::Seen;
use crate::trail::Trail;
use sc_base::{Op, OutOfMemory};
use sc_history::End;
use sc_linear_law::Request;
use std::alloc::Global;

/// Returns whether a request is not answered.
fn is_lost(request: &Request) -> bool
    ensures { result ≡ is_none (answer_line request.now.ending) }
{
    match &request.ending {
        None => true,
        Some((_, End::Fail | End::Lost)) => true,
        Some((_, End::Absent | End::Value(_) | End::Done | End::No)) => false,
    }
}

/// Takes one request under way at a place, if it fits there; a lost one that changes nothing is
/// not taken. A place that was seen is not added again.
fn try_one(
    alloc: Global,
    requests: &[Request],
    x: usize,
    line: u64,
    at: usize,
    seen: &mut Seen,
    trail: &mut Trail,
) -> Result<(), OutOfMemory>
    requires under { IsUnder requests.now line x }
    requires at { at < length seen.old }
    requires lead { AllLead requests.now line trail.old seen.old }
    ensures lead { OnOk result (AllLead requests.now line trail.new seen.new) }
    ensures kept { OnOk result (Extends seen.old seen.new) }
    ensures taken { OnOk result (can_take requests.now (place_at seen.old at) x ≡ true → is_seen (with_request requests.now (place_at seen.old at) x) seen.new ≡ true) }
{
    let place = seen.place(at);
    let request = &requests[x];
    if place.has(x) || !fits(request, place.value()) {
        return Ok(());
    }
    let value = value_after(&request.op, place.value(), alloc)?;
    if is_lost(request) && same_value(&value, place.value()) {
        return Ok(());
    }
    let next = place.with(x, value, alloc)?;
    if seen.has(&next) {
        return Ok(());
    }
    let path = trail.push(seen.path(at), line, x)?;
    seen.push(next, path)
}

/// Returns whether a request can be taken at a place, and changes nothing there nor wherever else
/// it fits.
fn is_reader(request: &Request, x: usize, place: &Taken) -> bool
    ensures { result ≡ true → CanRead request.now x place.now }
{
    !place.has(x)
        && !is_lost(request)
        && is_settled(request)
        && fits(request, place.value())
        && is_idle(&request.op, place.value())
}

/// Returns a request under way that can be taken at a place, and changes nothing there nor wherever
/// else it fits, if there is one.
fn find_reader(requests: &[Request], under: &[usize], line: u64, place: &Taken) -> Option<usize>
    requires { Each (IsUnder requests.now line) under.now }
    ensures { IfSome result (IsReaderAt requests.now under.now place.now) }
{
    for x in under {
        if is_reader(&requests[*x], *x, place) {
            return Some(*x);
        }
    }
    None
}

/// Takes each request under way that can be taken at a place.
fn expand_all(
    alloc: Global,
    requests: &[Request],
    under: &[usize],
    line: u64,
    at: usize,
    seen: &mut Seen,
    trail: &mut Trail,
) -> Result<(), OutOfMemory>
    requires under { Each (IsUnder requests.now line) under.now }
    requires at { at < length seen.old }
    requires lead { AllLead requests.now line trail.old seen.old }
    ensures lead { OnOk result (AllLead requests.now line trail.new seen.new) }
    ensures kept { OnOk result (Extends seen.old seen.new) }
    ensures all { OnOk result (AllTaken requests.now seen.new (place_at seen.old at) under.now) }
{
    for x in under {
        try_one(alloc, requests, *x, line, at, seen, trail)?;
    }
    Ok(())
}

/// Takes each request under way that can be taken at a place, or one alone that changes nothing.
fn expand(
    alloc: Global,
    requests: &[Request],
    under: &[usize],
    line: u64,
    at: usize,
    seen: &mut Seen,
    trail: &mut Trail,
) -> Result<(), OutOfMemory>
    requires under { Each (IsUnder requests.now line) under.now }
    requires at { at < length seen.old }
    requires lead { AllLead requests.now line trail.old seen.old }
    ensures lead { OnOk result (AllLead requests.now line trail.new seen.new) }
    ensures kept { OnOk result (Extends seen.old seen.new) }
    ensures closed { OnOk result (IsClosedAt requests.now under.now seen.new (place_at seen.old at)) }
{
    match find_reader(requests, under, line, seen.place(at)) {
        Some(x) => try_one(alloc, requests, x, line, at, seen, trail),
        None => expand_all(alloc, requests, under, line, at, seen, trail),
    }
}

/// Expands a place at which `who` is not taken.
fn visit(
    alloc: Global,
    requests: &[Request],
    under: &[usize],
    who: usize,
    line: u64,
    at: usize,
    seen: &mut Seen,
    trail: &mut Trail,
) -> Result<(), OutOfMemory>
    requires under { Each (IsUnder requests.now line) under.now }
    requires at { at < length seen.old }
    requires lead { AllLead requests.now line trail.old seen.old }
    ensures lead { OnOk result (AllLead requests.now line trail.new seen.new) }
    ensures kept { OnOk result (Extends seen.old seen.new) }
    ensures closed { OnOk result (has (place_at seen.old at).taken who ≡ false → IsClosedAt requests.now under.now seen.new (place_at seen.old at)) }
{
    if seen.place(at).has(who) {
        return Ok(());
    }
    expand(alloc, requests, under, line, at, seen, trail)
}

/// Explores from the places that were seen, until each at which `who` is not taken has been
/// expanded. Returns `false` where there are more than `most` places.
pub fn explore(
    alloc: Global,
    requests: &[Request],
    under: &[usize],
    who: usize,
    line: u64,
    most: usize,
    seen: &mut Seen,
    trail: &mut Trail,
) -> Result<bool, OutOfMemory>
    requires under { Each (IsUnder requests.now line) under.now }
    requires lead { AllLead requests.now line trail.old seen.old }
    ensures lead { OnOk result (AllLead requests.now line trail.new seen.new) }
    ensures kept { OnOk result (Extends seen.old seen.new) }
    ensures closed { IfOk result (λ done. done ≡ true → AreClosed requests.now under.now who seen.new (length seen.new)) }
    ensures more { IfOk result (λ done. done ≡ false → most < length seen.new) }
    ensures apart { IfOk result (λ done. done ≡ false → AreApart seen.new) }
{
    if seen.len() > most {
        return Ok(false);
    }
    for at in 0..most {
        if at >= seen.len() {
            return Ok(true);
        }
        visit(alloc, requests, under, who, line, at, seen, trail)?;
        if seen.len() > most {
            return Ok(false);
        }
    }
    Ok(true)
}

/// Adds the place at an index without `who`, which has ended, if it is taken there.
fn keep_one(
    alloc: Global,
    seen: &Seen,
    who: usize,
    at: usize,
    kept: &mut Seen,
) -> Result<(), OutOfMemory>
    requires at { at < length seen.now }
    requires from { ComeFrom who seen.now kept.old }
    ensures from { OnOk result (ComeFrom who seen.now kept.new) }
    ensures more { OnOk result (Extends kept.old kept.new) }
    ensures here { OnOk result (has (place_at seen.now at).taken who ≡ true → is_seen (without_request who (place_at seen.now at)) kept.new ≡ true) }
{
    let place = seen.place(at);
    if !place.has(who) {
        return Ok(());
    }
    let less = place.without(who, alloc)?;
    if kept.has(&less) {
        return Ok(());
    }
    kept.push(less, seen.path(at))
}

/// Returns the places at which `who` is taken, without it, since it has ended.
pub fn keep(alloc: Global, seen: &Seen, who: usize) -> Result<Seen, OutOfMemory>
    ensures from { IfOk result (ComeFrom who seen.now) }
    ensures all { IfOk result (AreKept who seen.now) }
{
    let mut kept = Seen::new(alloc);
    for at in 0..seen.len() {
        keep_one(alloc, seen, who, at, &mut kept)?;
    }
    Ok(kept)
}
