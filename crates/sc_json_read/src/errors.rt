//! Why a text is not read.
use sc_base::KeyError;
use std::alloc::{AllocError, AllocFailed};

/// Why a text or a JSON gives no value.
#[derive(Clone, Copy, Debug, PartialEq, Eq)]
pub enum RowError {
    /// No value has this text or this JSON.
    NoRow,
    /// Memory ran out.
    OutOfMemory,
}

impl From<AllocError> for RowError {
    ghost use Rattle.std.specs.Prelude.{◌≡◌};
    ghost use Rattle.sc_json_read.specs.declared.errors.RowError.TheVariants.{OutOfMemory};

    ghost from_gives = { λ _ e. e ≡ OutOfMemory };

    fn from(_e: AllocError) -> RowError {
        RowError::OutOfMemory
    }
}

impl<T: Drop> From<AllocFailed<T>> for RowError {
    ghost use Rattle.std.specs.Prelude.{◌≡◌};
    ghost use Rattle.sc_json_read.specs.declared.errors.RowError.TheVariants.{OutOfMemory};

    ghost from_gives = { λ _ e. e ≡ OutOfMemory };

    fn from(_e: AllocFailed<T>) -> RowError {
        RowError::OutOfMemory
    }
}

impl From<sc_base::OutOfMemory> for RowError {
    ghost use Rattle.std.specs.Prelude.{◌≡◌};
    ghost use Rattle.sc_json_read.specs.declared.errors.RowError.TheVariants.{OutOfMemory};

    ghost from_gives = { λ _ e. e ≡ OutOfMemory };

    fn from(_e: sc_base::OutOfMemory) -> RowError {
        RowError::OutOfMemory
    }
}

impl From<KeyError> for RowError {
    ghost use Rattle.std.specs.Prelude.{◌≡◌};
    ghost use Rattle.sc_base.specs.declared.texts.KeyError.TheVariants as TheError;
    ghost use Rattle.sc_json_read.specs.declared.errors.RowError.TheVariants.{OutOfMemory};

    ghost from_gives = { λ error e. error ≡ TheError.OutOfMemory → e ≡ OutOfMemory };

    fn from(error: KeyError) -> RowError {
        match error {
            KeyError::OutOfMemory => RowError::OutOfMemory,
            _ => RowError::NoRow,
        }
    }
}
