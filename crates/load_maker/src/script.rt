// A number of stages to the script of its load.
ghost use Rattle.std.specs.Prelude.{◌≡◌, ◌≤◌, ◌++◌, IfOk, OnOk};
ghost use Rattle.load_maker.specs.Scripts.{closing, first_edit, lines, script_of, second_edit};

use crate::files::{push_numbered, push_stage_file, push_top_file};
use ls_text::NoMemory;
use std::alloc::Global;

// Adds the edit that gives both files.
fn push_first_edit(text: &mut Vec<u8>, stages: u32) -> Result<(), NoMemory>
    requires { stages ≤ 4096 }
    ensures { OnOk result (text.new.items ≡ text.old.items ++ lines (first_edit stages)) }
{
    text.extend_from_slice(b"edit\ntop top\nclock clk\n")?;
    push_stage_file(text, b"r + d")?;
    push_top_file(text, stages)?;
    text.extend_from_slice(b"end\n")?;
    Ok(())
}

// Adds the edit of the stage alone.
fn push_second_edit(text: &mut Vec<u8>) -> Result<(), NoMemory>
    ensures { OnOk result (text.new.items ≡ text.old.items ++ lines second_edit) }
{
    text.extend_from_slice(b"edit\n")?;
    push_stage_file(text, b"d + r")?;
    text.extend_from_slice(b"end\n")?;
    Ok(())
}

// Adds the commands behind the edits.
fn push_closing(text: &mut Vec<u8>, stages: u32) -> Result<(), NoMemory>
    ensures { OnOk result (text.new.items ≡ text.old.items ++ lines (closing stages)) }
{
    push_numbered(text, b"settle\nshow top.s", stages)?;
    text.extend_from_slice(b".\nquit\n")?;
    Ok(())
}

/// The script of a load of 1 to 4,096 stages: an edit that gives them in a row, a run of 1,000 cycles, an edit of their module, and commands that
/// settle and show the register of the last stage. Its length and the time that it takes are linear in the stages.
///
/// `NoMemory`: memory ran out; nothing else is refused.
pub fn make(alloc: Global, n: u32) -> Result<Vec<u8>, NoMemory>
    requires some { 1 ≤ n }
    requires few { n ≤ 4096 }
    ensures { IfOk result (λ script. script.items ≡ script_of n) }
{
    let mut text = Vec::new(alloc);
    push_first_edit(&mut text, n)?;
    text.extend_from_slice(b"set d=1\nrun 1000\n")?;
    push_second_edit(&mut text)?;
    push_closing(&mut text, n)?;
    Ok(text)
}
