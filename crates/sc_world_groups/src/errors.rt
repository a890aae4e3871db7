//! Why an entry is not taken.

use sc_base::OutOfMemory;

/// Why an entry is not taken.
#[derive(Clone, Copy, Debug, PartialEq, Eq)]
pub enum EntryError {
    /// The entry would leave a cut that is no arc of the ring. No entry of a lawful journal does.
    NoArc,
    OutOfMemory,
}

impl From<OutOfMemory> for EntryError {
    ghost use Rattle.std.specs.Prelude.{◌≡◌};
    ghost use Rattle.sc_world_groups.specs.declared.errors.EntryError.TheVariants.{OutOfMemory};

    ghost from_gives = { λ _ error. error ≡ OutOfMemory };

    fn from(_short: OutOfMemory) -> EntryError {
        EntryError::OutOfMemory
    }
}
