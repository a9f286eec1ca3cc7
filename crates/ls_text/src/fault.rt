// A fault: what is wrong, and where.
ghost use Rattle.std.specs.Prelude.{◌≡◌, []};

use crate::{At, NameList, Place};
use std::alloc::Global;
use thiserror::Error;

/// What is wrong with a text or a command: its code, where it stands, and the names that it shows.
///
/// The codes are those of the fault table, from 10 `TextTooLong` to 69 `StimulusFull`.
#[derive(Debug, Drop, Error)]
#[error("a fault of code {code}")]
pub struct Fault {
    pub code: u8,
    pub at: At,
    pub names: NameList,
}

/// A fault at a place of a text, which shows no name. It takes no memory.
pub fn text_fault(alloc: Global, code: u8, at: Place) -> Fault
    ensures { result ≡ record { code = code; at = At.Text at; names = [] } }
{
    Fault {
        code,
        at: At::Text(at),
        names: NameList::new(Vec::new(alloc)),
    }
}
