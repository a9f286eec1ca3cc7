// How a call on a design's texts may refuse.
ghost use Rattle.std.specs.Prelude.{◌≡◌};

use crate::{Fault, NoMemory};
use std::alloc::{AllocError, AllocFailed};
use thiserror::Error;

/// A fault, or want of memory.
#[derive(Debug, Drop, Error)]
pub enum Refusal {
    #[error("a text or a command is refused")]
    Fault(Fault),
    #[error("out of memory")]
    NoMemory,
}

impl From<Fault> for Refusal {
    ghost use Rattle.ls_text.specs.declared.refusal.Refusal.{Refusal};

    ghost from_gives = { λ fault refusal. refusal ≡ Refusal.Fault fault };

    fn from(fault: Fault) -> Self {
        Refusal::Fault(fault)
    }
}

impl From<NoMemory> for Refusal {
    ghost use Rattle.ls_text.specs.declared.refusal.Refusal.{Refusal};

    ghost from_gives = { λ _ refusal. refusal ≡ Refusal.NoMemory };

    fn from(_: NoMemory) -> Self {
        Refusal::NoMemory
    }
}

impl From<AllocError> for Refusal {
    ghost use Rattle.ls_text.specs.declared.refusal.Refusal.{Refusal};

    ghost from_gives = { λ _ refusal. refusal ≡ Refusal.NoMemory };

    fn from(_: AllocError) -> Self {
        Refusal::NoMemory
    }
}

impl<T: Drop> From<AllocFailed<T>> for Refusal {
    ghost use Rattle.ls_text.specs.declared.refusal.Refusal.{Refusal};

    ghost from_gives = { λ _ refusal. refusal ≡ Refusal.NoMemory };

    fn from(_: AllocFailed<T>) -> Self {
        Refusal::NoMemory
    }
}
