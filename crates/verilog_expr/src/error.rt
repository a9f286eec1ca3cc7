// Why nothing was read.
ghost use Rattle.std.specs.Prelude.{◌≡◌};
ghost use Rattle.verilog_expr.specs.declared.error.ParseError.TheVariants.{NoMemory};

use crate::fault::ParseFault;
use ls_text::NoMemory;
use std::alloc::{AllocError, AllocFailed};
use thiserror::Error;

/// Why nothing was read.
#[derive(Debug, Drop, Error)]
pub enum ParseError {
    /// Memory ran out.
    #[error("out of memory")]
    NoMemory,
    /// The grammar's machine refuses the tokens.
    #[error("the grammar refuses a token")]
    Fault(ParseFault),
}

impl From<NoMemory> for ParseError {
    ghost from_gives = { λ _ e. e ≡ NoMemory };

    fn from(_: NoMemory) -> ParseError {
        ParseError::NoMemory
    }
}

impl From<AllocError> for ParseError {
    ghost from_gives = { λ _ e. e ≡ NoMemory };

    fn from(_: AllocError) -> ParseError {
        ParseError::NoMemory
    }
}

impl<T: Drop> From<AllocFailed<T>> for ParseError {
    ghost from_gives = { λ _ e. e ≡ NoMemory };

    fn from(_: AllocFailed<T>) -> ParseError {
        ParseError::NoMemory
    }
}
