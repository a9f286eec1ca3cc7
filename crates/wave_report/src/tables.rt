// A state to the table of its registers.
ghost use Rattle.std.specs.Prelude.{◌≡◌, ◌≤◌, ◌++◌, IfOk, OnOk};
ghost use Rattle.cycle_eval.specs.Designs.{design_flat};
ghost use Rattle.cycle_eval.specs.Kits.{Fits};
ghost use Rattle.reg_transform.specs.States.{state_values};
ghost use Rattle.wave_report.specs.Tables.{shown_line, table_text};

use crate::digits::push_hex;
use crate::naming::push_path;
use cycle_eval::Design;
use ls_text::{Names, NoMemory};
use state_layout::SlotState;
use std::alloc::Global;
use typed_ir::RegisterId;

// Adds the line of a register, where its path begins with the prefix.
fn push_line(
    out: &mut Vec<u8>,
    prefix: &[u8],
    path: &[u8],
    width: u8,
    value: u128,
) -> Result<(), NoMemory>
    requires { width ≤ 128 }
    ensures { OnOk result (out.new.items ≡ out.old.items ++ shown_line prefix.now path.now width value) }
{
    if !path.starts_with(prefix) {
        return Ok(());
    }
    out.extend_from_slice(path)?;
    out.push(b' ')?;
    push_hex(out, width, value)?;
    out.push(b'\n')?;
    Ok(())
}

/// The table of a state: a line `PATH VALUE` for each register whose path begins with the prefix, in the order of the design. The value
/// is in lower-case hexadecimal, with a digit for each four bits of the register. Want of memory is `NoMemory`, and nothing else is refused.
pub fn table(
    alloc: Global,
    names: &Names,
    design: &Design,
    state: &SlotState,
    prefix: &[u8],
) -> Result<Vec<u8>, NoMemory>
    requires { Fits (design_flat design.now) state.now }
    ensures { IfOk result (λ text. text.items ≡ table_text names.now (design_flat design.now) (state_values state.now) prefix.now) }
{
    let rows = design.instances();
    let signals = design.signals();
    let registers = design.registers();
    let mut text = Vec::new(alloc);
    let mut path = Vec::new(alloc);
    for number in 0..registers.len() {
        let place = registers[number].index();
        let signal = &signals[place];
        path.clear();
        push_path(&mut path, names, rows, signal)?;
        let value = state.read(RegisterId(number)).value;
        push_line(&mut text, prefix, &path, signal.width, value)?;
    }
    Ok(text)
}
