//! Cuts while the ring is changed: their arcs may have any length, so that a change needs no test.
//! The cuts are tested once, when they become the ring.
ghost use Rattle.std.specs.Prelude.{◌≡◌, ◌++◌, ◌∷◌, [], if◌then◌else◌, IfOk, IsOk, OnOk, MatchOption, MatchResult};
ghost use Rattle.sc_base.specs.Arc.{IsArc, offset, before, from, joined};
ghost use Rattle.sc_meaning.specs.entries.Rings.{HaveArcs, is_cut_of};
ghost use Rattle.sc_world_groups.specs.declared.errors.EntryError.TheVariants.{NoArc};

use crate::errors::EntryError;
use sc_base::{Draw, OutOfMemory, RingArc, same_draw};
use sc_meaning::Cut;
use std::alloc::Global;
use std::marker::Model;

/// The `len` positions from `lo` on: an arc where there are 1 to 2^32.
#[derive(Clone, Copy)]
pub(crate) struct Stretch {
    lo: u32,
    len: u64,
}

impl Model for Stretch {
    ghost use Rattle.sc_base.specs.Arc.{Arc};

    ghost Value = { Arc };

    ghost view = { λ s. record { lo = s.lo; len = s.len } };

    ghost inverse = { λ arc. record { lo = arc.lo; len = arc.len } };
}

impl Stretch {
    /// Returns an arc as a stretch.
    pub(crate) fn of(arc: RingArc) -> Stretch
        ensures { result ≡ arc }
    {
        Stretch {
            lo: arc.lo(),
            len: arc.len(),
        }
    }

    /// Returns the positions of two arcs, the second behind the first, as one stretch.
    pub(crate) fn joined(arc: RingArc, next: RingArc) -> Stretch
        ensures { result ≡ joined arc next }
    {
        Stretch {
            lo: arc.lo(),
            len: arc.len() + next.len(),
        }
    }

    fn offset(self, at: u32) -> u64
        ensures { result ≡ offset self at }
    {
        at.wrapping_sub(self.lo) as u64
    }

    /// Returns the part before a position.
    pub(crate) fn before(self, at: u32) -> Stretch
        ensures { result ≡ before self at }
    {
        Stretch {
            lo: self.lo,
            len: self.offset(at),
        }
    }

    /// Returns the part from a position on.
    pub(crate) fn from(self, at: u32) -> Stretch
        ensures { result ≡ from self at }
    {
        Stretch {
            lo: at,
            len: self.len.saturating_sub(self.offset(at)),
        }
    }
}

/// A cut of the ring while the ring is changed.
#[derive(Clone, Copy)]
pub(crate) struct Span {
    pub(crate) arc: Stretch,
    pub(crate) group: Draw,
}

impl Model for Span {
    ghost use Rattle.sc_meaning.specs.declared.entries.Cut.{Cut};

    ghost Value = { Cut };

    ghost view = { λ s. record { arc = s.arc; group = s.group } };

    ghost inverse = { λ cut. record { arc = cut.arc; group = cut.group } };
}

impl Span {
    /// Returns a cut as a span.
    pub(crate) fn of(cut: &Cut) -> Span
        ensures { result ≡ cut.now }
    {
        Span {
            arc: Stretch::of(cut.arc),
            group: cut.group,
        }
    }

    /// Returns whether it is the span of a group.
    pub(crate) fn is_of(&self, group: Draw) -> bool
        ensures { result ≡ is_cut_of group self.now }
    {
        same_draw(self.group, group)
    }

    /// Returns it with another arc, if it is the span of the group, and else unchanged.
    pub(crate) fn with_arc(self, group: Draw, arc: Stretch) -> Span
        ensures { result ≡ (if is_cut_of group self then record self { arc = arc } else self) }
    {
        if self.is_of(group) {
            return Span {
                arc,
                group: self.group,
            };
        }
        self
    }
}

/// Returns the cuts of a ring as spans.
pub(crate) fn spans_of(alloc: Global, ring: &[Cut]) -> Result<Vec<Span>, OutOfMemory>
    ensures spans { IfOk result (λ spans. spans.items ≡ ring.now) }
    ensures none { ring.now ≡ [] → IsOk result }
{
    let mut spans = Vec::new(alloc);
    for cut in ring {
        spans.push(Span::of(cut))?;
    }
    Ok(spans)
}

fn cut_of(span: &Span) -> Option<Cut>
    ensures { MatchOption result (IsArc span.now.arc → ⊥) (λ cut. cut ≡ span.now) }
{
    match RingArc::try_new(span.arc.lo, span.arc.len) {
        Ok(arc) => Some(Cut {
            arc,
            group: span.group,
        }),
        Err(_) => None,
    }
}

fn add(ring: &mut Vec<Cut>, cut: Cut) -> Result<(), OutOfMemory>
    ensures { OnOk result (ring.new.items ≡ ring.old.items ++ cut ∷ []) }
{
    ring.push(cut)?;
    Ok(())
}

/// Returns the ring that these spans are. Fails where it runs out of memory, and where a span is no
/// arc.
pub(crate) fn cuts_of(alloc: Global, spans: &[Span]) -> Result<Vec<Cut>, EntryError>
    ensures ring { MatchResult result (λ ring. ring.items ≡ spans.now)
        (λ error. error ≡ NoArc → HaveArcs spans.now → ⊥) }
    ensures none { spans.now ≡ [] → IsOk result }
{
    let mut ring = Vec::new(alloc);
    for span in spans {
        match cut_of(span) {
            Some(cut) => add(&mut ring, cut)?,
            None => return Err(EntryError::NoArc),
        }
    }
    Ok(ring)
}
