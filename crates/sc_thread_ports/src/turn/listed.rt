//! The trait of the shared value.
ghost use Rattle.std.specs.Prelude.{◌≡◌, ℕ, ◌<◌, ◌^◌, List, length};

/// A value that stands for a list of rows.
pub trait Listed: Drop {
    /// A row without the number of its maker.
    type Entry;

    /// The rows, each with the number of its maker.
    ghost entries: { Self → List (Self.Entry × ℕ) };

    /// Returns the number of rows. A seat that leaves compares it with the number of counted rows,
    /// to know whether a row was added.
    fn count(&self) -> u64
        requires { length (entries self.now) < 2 ^ 64 }
        ensures { result ≡ length (entries self.now) };
}
