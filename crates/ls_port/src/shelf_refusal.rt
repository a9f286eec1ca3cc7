// Why a shelf gives no text.
ghost use Rattle.std.specs.Prelude.{◌≡◌};

use std::alloc::{AllocError, AllocFailed};
use thiserror::Error;

/// Why a shelf gives no text.
#[derive(Clone, Copy, Debug, PartialEq, Eq, Error)]
pub enum ShelfRefusal {
    #[error("the shelf failed")]
    Failed,
    #[error("out of memory")]
    NoMemory,
}

impl From<AllocError> for ShelfRefusal {
    ghost use Rattle.ls_port.specs.declared.shelf_refusal.ShelfRefusal.{ShelfRefusal};

    ghost from_gives = { λ _ refusal. refusal ≡ ShelfRefusal.NoMemory };

    fn from(_: AllocError) -> Self {
        ShelfRefusal::NoMemory
    }
}

impl<T: Drop> From<AllocFailed<T>> for ShelfRefusal {
    ghost use Rattle.ls_port.specs.declared.shelf_refusal.ShelfRefusal.{ShelfRefusal};

    ghost from_gives = { λ _ refusal. refusal ≡ ShelfRefusal.NoMemory };

    fn from(_: AllocFailed<T>) -> Self {
        ShelfRefusal::NoMemory
    }
}
