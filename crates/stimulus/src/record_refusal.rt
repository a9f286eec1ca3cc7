// Why a record takes no more rows.
ghost use Rattle.std.specs.Prelude.{◌≡◌};

use ls_text::NoMemory;
use std::alloc::{AllocError, AllocFailed};
use thiserror::Error;

/// Why a record takes no more rows.
#[derive(Clone, Copy, Debug, PartialEq, Eq, Error)]
pub enum RecordRefusal {
    /// More names would be set than its limit.
    #[error("the rows set too many names")]
    StimulusFull,
    #[error("out of memory")]
    NoMemory,
}

impl From<NoMemory> for RecordRefusal {
    ghost use Rattle.stimulus.specs.declared.record_refusal.RecordRefusal.{RecordRefusal};

    ghost from_gives = { λ _ refusal. refusal ≡ RecordRefusal.NoMemory };

    fn from(_: NoMemory) -> Self {
        RecordRefusal::NoMemory
    }
}

impl From<AllocError> for RecordRefusal {
    ghost use Rattle.stimulus.specs.declared.record_refusal.RecordRefusal.{RecordRefusal};

    ghost from_gives = { λ _ refusal. refusal ≡ RecordRefusal.NoMemory };

    fn from(_: AllocError) -> Self {
        RecordRefusal::NoMemory
    }
}

impl<T: Drop> From<AllocFailed<T>> for RecordRefusal {
    ghost use Rattle.stimulus.specs.declared.record_refusal.RecordRefusal.{RecordRefusal};

    ghost from_gives = { λ _ refusal. refusal ≡ RecordRefusal.NoMemory };

    fn from(_: AllocFailed<T>) -> Self {
        RecordRefusal::NoMemory
    }
}
