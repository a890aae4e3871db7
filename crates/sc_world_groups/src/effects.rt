//! What an entry decides by its effect.
ghost use Rattle.std.specs.Prelude.{◌≡◌};
ghost use Rattle.std.specs.Option.{option_copied};
ghost use Rattle.sc_meaning.specs.entries.Births.{division_in, division_of};
ghost use Rattle.sc_meaning.specs.entries.Rings.{decided_by};

use sc_meaning::Division;
use sc_words::{Body, Command, Core, Effect, Lock, Outcome};

// Returns the division that a group coordinates by its lock, if it coordinates one.
fn division_in(lock: &Lock) -> Option<Division>
    ensures { result ≡ division_in lock.now }
{
    match lock {
        Lock::Coordinating {
            body: Body::Split { at, child },
            ..
        } => Some(Division {
            at: *at,
            child: *child,
        }),
        _ => None,
    }
}

/// Returns the division that an entry makes of a group with this record before the entry, if it
/// makes one.
pub(crate) fn division_of(core: &Core, command: &Command, effect: &Effect) -> Option<Division>
    ensures { result ≡ division_of core.now command.now effect.now }
{
    match command {
        Command::Split { at, child, .. } => {
            if effect.is_changed() && core.is_alone() {
                return Some(Division {
                    at: *at,
                    child: *child,
                });
            }
            None
        }
        Command::RecordWatch { .. } => {
            if effect.is_divided() {
                return division_in(&core.lock);
            }
            None
        }
        _ => None,
    }
}

/// Returns what an entry decides for its group as coordinator, by the vote of the participant or of
/// the watcher, if it decides something.
pub(crate) fn decided_by<'a>(command: &Command, effect: &'a Effect) -> Option<&'a Outcome>
    ensures { option_copied result ≡ decided_by command.now effect.now }
{
    match command {
        Command::RecordVote { .. } | Command::RecordWatch { .. } => effect.outcome(),
        _ => None,
    }
}
