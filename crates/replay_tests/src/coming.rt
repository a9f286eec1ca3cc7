// Versions that come, as tables of tests name them.
use crate::adders::{Adder, design};
use book_history::load::Load;
use book_history::version::Version;
use cycle_eval::Design;
use ls_text::NoMemory;
use reg_ops::{RegOp, RegOps};
use std::alloc::Global;
use std::process::Abort;
use std::sync::Arc;

/// The number of a version and its design, and whether it comes with an open.
#[derive(Clone, Copy, Debug, PartialEq, Eq)]
pub struct Coming {
    pub is_open: bool,
    pub number: u64,
    pub adder: Adder,
}

/// The load of a version, a reload's with these operations.
pub fn load(
    rt: &impl Abort,
    alloc: Global,
    coming: Coming,
    ops: &[RegOp],
) -> Result<Load<Design, RegOps>, NoMemory> {
    let machine = Arc::new(alloc, design(rt, alloc, coming.adder)?)?;
    let number = coming.number;
    let version = Arc::new(alloc, Version { number, machine })?;
    if coming.is_open {
        return Ok(Load::Open(version));
    }
    let ops = RegOps::new(Vec::from_slice(alloc, ops)?);
    Ok(Load::Reload(version, Arc::new(alloc, ops)?))
}
