//! The parts of an arc, by the ranges of a ring.
ghost use Rattle.std.specs.Prelude.{◌≡◌, ◌<◌, ◌≤◌, ◌^◌, [], IsTrue, find, IfOk, IsOk};
ghost use Rattle.std.specs.Option.{option_copied};
ghost use Rattle.sc_base.specs.Arc.{holds, IsArc};
ghost use Rattle.sc_world_entries.specs.scans.Walk.{first_part, parts_in, reach};

use sc_base::{Draw, OutOfMemory, RingArc};
use sc_meaning::Cut;
use std::alloc::Global;

/// A part of an arc, and the group in whose range it lies.
#[derive(Clone, Copy)]
pub struct Part {
    /// The positions of the part.
    pub arc: RingArc,
    /// The group that has these positions.
    pub group: Draw,
}

// Returns how many positions a range has from a position on that it holds.
fn reach(cut: &Cut, p: u32) -> u64
    requires { IsTrue (holds cut.now.arc p) }
    ensures same { result ≡ reach cut.now p }
    ensures some { 1 ≤ result }
{
    cut.arc.len() - p.wrapping_sub(cut.arc.lo()) as u64
}

// Returns the part with which `len` positions from `lo` on begin, in the range that holds `lo`.
fn first_part(lo: u32, len: u64, cut: &Cut) -> Part
    requires some { 1 ≤ len }
    requires most { len ≤ 2 ^ 32 }
    requires held { IsTrue (holds cut.now.arc lo) }
    ensures { result ≡ first_part (record { lo = lo; len = len }) cut.now }
{
    let room = reach(cut, lo);
    let least = if len < room { len } else { room };
    let Ok(arc) = RingArc::try_new(lo, least) else {
        unreachable!()
    };
    Part {
        arc,
        group: cut.group,
    }
}

// Returns the first range that holds a position, if one does.
fn cut_at(ring: &[Cut], lo: u32) -> Option<&Cut>
    ensures { option_copied result ≡ find (λ cut. holds cut.arc lo) ring.now }
{
    ring.iter().find(|cut| cut.arc.holds(lo))
}

/// Returns the parts of an arc, from its start on: each starts where the last one ended, lies in a
/// range that holds its start, and ends with that range or with the arc. Where no range holds a
/// start, no more parts come. The only error is out of memory, where the arc has a part.
pub fn parts(alloc: Global, ring: &[Cut], arc: &RingArc) -> Result<Vec<Part>, OutOfMemory>
    ensures parts { IfOk result (λ parts. parts.items ≡ parts_in ring.now arc.now) }
    ensures arc { IsArc arc.now × (arc.now.lo < 2 ^ 32) }
    ensures none { parts_in ring.now arc.now ≡ [] → IsOk result }
{
    let mut parts = Vec::new(alloc);
    let mut lo = arc.lo();
    let mut left = arc.len();
    while left > 0 {
        let Some(cut) = cut_at(ring, lo) else {
            return Ok(parts);
        };
        let part = first_part(lo, left, cut);
        lo = part.arc.end();
        left -= part.arc.len();
        parts.push(part)?;
    }
    Ok(parts)
}
