// The files of a load: the module of a stage, and a top with stages in a row.
ghost use Rattle.std.specs.Prelude.{◌≡◌, ◌≤◌, ◌++◌, decimal, OnOk};
ghost use Rattle.load_maker.specs.Scripts.{lines, stage_file, stage_lines, stages, top_file};

use ls_text::{NoMemory, push_decimal};

/// Adds a text with a number behind it.
pub fn push_numbered(text: &mut Vec<u8>, before: &[u8], number: u32) -> Result<(), NoMemory>
    ensures { OnOk result (text.new.items ≡ text.old.items ++ (before.now ++ decimal number)) }
{
    text.extend_from_slice(before)?;
    push_decimal(text, u64::from(number))
}

/// Adds the file of a stage, whose register becomes this sum in each cycle.
pub fn push_stage_file(text: &mut Vec<u8>, sum: &[u8]) -> Result<(), NoMemory>
    ensures { OnOk result (text.new.items ≡ text.old.items ++ lines (stage_file sum.now)) }
{
    text.extend_from_slice(
        b"file stage.v\n\
        module stage(input clk, input [31:0] d, output [31:0] q);\n\
        reg [31:0] r;\n\
        always @(posedge clk) r <= ",
    )?;
    text.extend_from_slice(sum)?;
    text.extend_from_slice(
        b";\n\
        assign q = r;\n\
        endmodule\n\
        .\n",
    )?;
    Ok(())
}

// Adds the lines of one stage.
fn push_stage(text: &mut Vec<u8>, stage: u32) -> Result<(), NoMemory>
    requires { 1 ≤ stage }
    ensures { OnOk result (text.new.items ≡ text.old.items ++ lines (stage_lines stage)) }
{
    push_numbered(text, b"wire [31:0] w", stage)?;
    push_numbered(text, b";\nstage s", stage)?;
    push_numbered(text, b"(clk, w", stage - 1)?;
    push_numbered(text, b", w", stage)?;
    text.extend_from_slice(b");\n")?;
    Ok(())
}

// Adds the lines of the stages from the first to the last.
fn push_stages(text: &mut Vec<u8>, last: u32) -> Result<(), NoMemory>
    requires { last ≤ 4096 }
    ensures { OnOk result (text.new.items ≡ text.old.items ++ lines (stages last)) }
{
    for stage in 1..last + 1 {
        push_stage(text, stage)?;
    }
    Ok(())
}

/// Adds the file of the top.
pub fn push_top_file(text: &mut Vec<u8>, last: u32) -> Result<(), NoMemory>
    requires { last ≤ 4096 }
    ensures { OnOk result (text.new.items ≡ text.old.items ++ lines (top_file last)) }
{
    text.extend_from_slice(
        b"file top.v\n\
        module top(input clk, input [31:0] d, output [31:0] q);\n\
        wire [31:0] w0 = d;\n",
    )?;
    push_stages(text, last)?;
    push_numbered(text, b"assign q = w", last)?;
    text.extend_from_slice(b";\nendmodule\n.\n")?;
    Ok(())
}
