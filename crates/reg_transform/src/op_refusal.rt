// Why operations on registers are refused.
ghost use Rattle.std.specs.Prelude.{◌≡◌};

use crate::op_fault::OpFault;
use ls_text::NoMemory;
use std::alloc::{AllocError, AllocFailed};
use thiserror::Error;

/// Why operations on registers are refused.
#[derive(Clone, Copy, Debug, PartialEq, Eq, Error)]
pub enum OpRefusal {
    /// An operation breaks a condition.
    #[error("an operation on registers breaks a condition")]
    Breaks(OpFault),
    #[error("out of memory")]
    NoMemory,
}

impl From<NoMemory> for OpRefusal {
    ghost use Rattle.reg_transform.specs.declared.op_refusal.OpRefusal.{OpRefusal};

    ghost from_gives = { λ _ refusal. refusal ≡ OpRefusal.NoMemory };

    fn from(_: NoMemory) -> Self {
        OpRefusal::NoMemory
    }
}

impl From<AllocError> for OpRefusal {
    ghost use Rattle.reg_transform.specs.declared.op_refusal.OpRefusal.{OpRefusal};

    ghost from_gives = { λ _ refusal. refusal ≡ OpRefusal.NoMemory };

    fn from(_: AllocError) -> Self {
        OpRefusal::NoMemory
    }
}

impl<T: Drop> From<AllocFailed<T>> for OpRefusal {
    ghost use Rattle.reg_transform.specs.declared.op_refusal.OpRefusal.{OpRefusal};

    ghost from_gives = { λ _ refusal. refusal ≡ OpRefusal.NoMemory };

    fn from(_: AllocFailed<T>) -> Self {
        OpRefusal::NoMemory
    }
}
