//! The trait of what is read from its JSON.
ghost use Rattle.std.specs.Prelude.{◌≡◌, IfOk};
ghost use Rattle.serde_json.specs.Data.{Data, null};
ghost use Rattle.serde_json.specs.View.{view};
ghost use Rattle.sc_json_read.specs.Reading.{Finds};

use crate::errors::RowError;
use serde_json::Value as Json;
use std::alloc::Global;

/// A type whose values are read from their JSON.
pub trait FromJson: Sized {
    /// The JSON of a value.
    ghost json_of: { Self → Data };

    /// What holds of each value of the type: numbers are in their range, texts and sets are valid.
    ghost Fits: { Self → Type 0 };

    /// Returns the value that has this JSON.
    ///
    /// Each value is found in its JSON, and a value that is found has exactly this JSON.
    /// `Err(NoRow)`: no value has this JSON. `Err(OutOfMemory)`: memory ran out.
    fn from_json(alloc: Global, json: &Json) -> Result<Self, RowError>
        ensures finds { (value : Self) → Fits value → view json.now ≡ json_of value
            → Finds value result }
        ensures exact { IfOk result (λ value. view json.now ≡ json_of value) };
}

/// A type of which no value's JSON is null, so that a value that may be absent can be read.
pub trait Present: FromJson {
    /// No value has the JSON null.
    ghost is_there: { (value : Self) → Self.Fits value → Self.json_of value ≡ null → ⊥ };
}
