//! Where a line of a kind may stand.
ghost use Rattle.std.specs.Prelude.{◌≡◌};
ghost use Rattle.sc_scenario.specs.scenario.Places.{phase_so_far, may_follow, is_in_place};
ghost use Rattle.sc_scenario.specs.declared.scenario.drafts.Reading.TheVariants.{Outside};

use crate::scenario::drafts::Draft;
use sc_texts::{Kind, is_inner, phase_of};

fn phase_so_far(draft: &Draft) -> u8
    ensures { result ≡ phase_so_far draft.now }
{
    if draft.lines.len() != 0 {
        5
    } else if draft.clients.len() != 0 {
        4
    } else if draft.policy {
        3
    } else if draft.groups.len() != 0 {
        2
    } else if draft.nodes != 0 {
        1
    } else {
        0
    }
}

fn may_follow(last: u8, phase: u8) -> bool
    ensures { result ≡ may_follow last phase }
{
    last <= phase
        && phase != 0
        && !(last == 1 && phase == 1)
        && !(last == 3 && phase == 3)
        && (phase < 2 || 1 <= last)
        && (phase < 3 || 2 <= last)
}

/// Returns whether a line of this kind may stand outside the sections, after what was read so far.
pub(crate) fn may_stand(draft: &Draft, kind: Kind) -> bool
    ensures { result ≡ is_in_place (Outside draft.now) kind }
{
    !is_inner(kind) && may_follow(phase_so_far(draft), phase_of(kind))
}
