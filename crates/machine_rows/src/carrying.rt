// Rows of two designs, and the beginning of the first one carried into the second.
use crate::designs::design_in;
use crate::running::push_state;
use cycle_eval::Design;
use ls_text::{NoMemory, behind, front};
use machine::Machine;
use reg_ops::RegOps;
use std::alloc::Global;

// What the registers of the second design have after the beginning of the first is carried into it.
fn carried_into(alloc: Global, before: &Design, after: &Design) -> Result<Vec<u8>, NoMemory> {
    let mut out = Vec::new(alloc);
    let start = before.reset(alloc)?;
    let none = RegOps::new(Vec::new(alloc));
    let state = after.carry(alloc, before, &none, &start)?;
    push_state(&mut out, &state)?;
    Ok(out)
}

/// What the registers of the second design of a row have, after the beginning of the first is carried into it. A `;` with spaces
/// around it stands between them.
pub fn carried(alloc: Global, text: &[u8]) -> Result<Vec<u8>, NoMemory> {
    let n = text.iter().take_while(|byte| **byte != b';').count();
    let Some((before, _)) = design_in(alloc, front(text, n.saturating_sub(1)))? else {
        return Ok(Vec::new(alloc));
    };
    match design_in(alloc, behind(text, n.saturating_add(2)))? {
        Some((after, _)) => carried_into(alloc, &before, &after),
        None => Ok(Vec::new(alloc)),
    }
}
