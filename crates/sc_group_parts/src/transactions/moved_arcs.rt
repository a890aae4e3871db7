//! The arcs of a participant whose boundary moves.
ghost use Rattle.std.specs.Prelude.{◌≡◌, Some, None, if◌then◌else◌};
ghost use Rattle.sc_base.specs.Arc.{from, joined};
ghost use Rattle.sc_group_table.specs.machine.Plans.{can_cut};
ghost use Rattle.sc_group_table.specs.machine.Finishes.{can_gain};

use sc_base::RingArc;
use sc_words::{Core, Offer};

/// Returns the arc of a participant that gains what the coordinator's arc, as it was offered, has
/// from `at` on, or `None` where that arc cannot be cut there or the two do not meet.
pub fn gained_arc(core: &Core, offer: &Offer, at: u32) -> Option<RingArc>
    ensures { result
        ≡ (if can_gain core.now offer.now at then Some (joined (from offer.now.arc at) core.now.arc)
        else None) }
{
    let (_before, gift) = offer.arc.cut(at).ok()?;
    gift.join(&core.arc).ok()
}

/// Returns the arc of a participant that loses what lies before `at`, or `None` where its arc
/// cannot be cut there.
pub fn lost_arc(core: &Core, at: u32) -> Option<RingArc>
    ensures { result ≡ (if can_cut core.now.arc at then Some (from core.now.arc at) else None) }
{
    let (_before, rest) = core.arc.cut(at).ok()?;
    Some(rest)
}
