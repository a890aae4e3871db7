//! Whether a participant's Yes decides a merge.
ghost use Rattle.std.specs.Prelude.{◌≡◌};
ghost use Rattle.sc_base.specs.Same.{same_draw};

use sc_base::same_draw;
use sc_words::{Core, Frozen};

/// Returns whether a participant's Yes decides a merge: only where the two groups make the ring.
/// Otherwise the group after the participant is asked first.
pub fn decides_alone(core: &Core, frozen: &Frozen) -> bool
    ensures { result ≡ same_draw frozen.now.succ.group core.now.id }
{
    same_draw(frozen.succ.group, core.id)
}
