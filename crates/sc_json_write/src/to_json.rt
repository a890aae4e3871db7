//! The trait of what is written as JSON.
ghost use Rattle.std.specs.Prelude.{◌≡◌, IfOk, OnOk};
ghost use Rattle.serde_json.specs.Data.{Data};
ghost use Rattle.serde_json.specs.View.{view};

use sc_base::OutOfMemory;
use serde_json::Value as Json;
use std::alloc::Global;

/// A type whose values have a JSON.
pub trait ToJson: Sized {
    /// The JSON of a value.
    ghost json_of: { Self → Data };

    /// What holds of each value of the type: numbers are in their range, texts and sets are valid.
    ghost Fits: { Self → Type 0 };

    /// Returns the JSON of the value. `Err(OutOfMemory)`: there was no memory for it.
    fn to_json(&self, alloc: Global) -> Result<Json, OutOfMemory>
        ensures json { IfOk result (λ json. view json ≡ json_of self.now) }
        ensures fits { OnOk result (Fits self.now) };
}
