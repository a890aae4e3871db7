//! The trait of what is read from the beginning of a text.
ghost use Rattle.std.specs.Prelude.{IfSome};
ghost use Rattle.serde_json.specs.Data.{Data};
ghost use Rattle.sc_json_fast.specs.Prefixes.{TextBegins};

use std::alloc::Global;

/// A type whose values are read from the beginning of a text.
pub(crate) trait FromText: Sized {
    /// The JSON of a value.
    ghost json_of: { Self → Data };

    /// What holds of each value of the type: numbers are in their range, and texts are valid.
    ghost Fits: { Self → Type 0 };

    /// Returns the value whose text begins the bytes, and the bytes behind it. `None` says nothing:
    /// the value may have another shape, or memory may have run out.
    fn take(alloc: Global, bytes: &[u8]) -> Option<(Self, &[u8])>
        ensures { IfSome result (λ found. TextBegins json_of Fits bytes.now found.0 found.1.now) };
}
