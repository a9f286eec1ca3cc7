// Texts that pass a limit by one.
use ls_text::NoMemory;
use std::alloc::Global;

const TOP: &str = "module top(input clk);\n";

const END: &str = "endmodule\n";

/// A text, and what refuses it: code, name of the fault, place and names, where the place is in the text.
#[derive(Drop)]
pub struct Refused {
    pub text: String,
    pub line: &'static str,
}

/// How many texts there are.
pub const TEXTS: u32 = 6;

/// The text of this number, from 0.
pub fn text(alloc: Global, number: u32) -> Result<Refused, NoMemory> {
    match number {
        0 => Ok(as_told(generate_blocks(alloc)?, "16 NestedTooDeep a.v:258:5 -")),
        1 => Ok(as_told(macro_in_itself(alloc)?, "12 BadDirective a.v:3:1 A")),
        2 => Ok(as_told(macros(alloc)?, "10 TextTooLong a.v:9:1 -")),
        3 => Ok(as_told(instances(alloc)?, "40 TooMany a.v:5:1 m")),
        4 => Ok(as_told(depth(alloc)?, "23 RecursiveInstance a.v:63:24 m64")),
        _ => Ok(as_told(words(alloc)?, "40 TooMany")),
    }
}

fn as_told(text: String, line: &'static str) -> Refused {
    Refused { text, line }
}

/// The same text so many times.
fn repeated(alloc: Global, text: &str, times: u32) -> Result<String, NoMemory> {
    let mut whole = String::new(alloc);
    for _ in 0..times {
        whole.push_str(text)?;
    }
    Ok(whole)
}

/// 257 blocks, each within the one before. The expression of the last one's `if` stands in 256 blocks and a bracket.
fn generate_blocks(alloc: Global) -> Result<String, NoMemory> {
    let begins = repeated(alloc, "if (1) begin : a\n", 257)?;
    let ends = repeated(alloc, "end\n", 257)?;
    Ok(format!(in alloc; "{TOP}{begins}{ends}{END}")?)
}

fn macro_in_itself(alloc: Global) -> Result<String, NoMemory> {
    Ok(format!(in alloc; "`define A `A\n{TOP}`A\n{END}")?)
}

/// Macros of 64, 1,024, 16,384, 262,144 and 4,194,304 bytes. Four uses of the last are 16 MiB, and the newlines between them are bytes too, so the fourth
/// one, in line 9, passes them.
fn macros(alloc: Global) -> Result<String, NoMemory> {
    let mut text = format!(in alloc; "`define A0 {}\n", repeated(alloc, "x", 64)?)?;
    for level in 1..5u32 {
        let use_ = format!(in alloc; "`A{}", level - 1)?;
        let body = repeated(alloc, use_.as_str(), 16)?;
        text.push_str(format!(in alloc; "`define A{level} {body}\n")?.as_str())?;
    }
    text.push_str("`A4\n`A4\n`A4\n`A4\n`A4\n")?;
    Ok(text)
}

/// 65,536 instances below the top.
fn instances(alloc: Global) -> Result<String, NoMemory> {
    Ok(format!(in alloc;
        "module m; {END}{TOP}genvar i;\nfor (i = 0; i < 65536; i = i + 1) begin : g\nm u();\nend\n{END}"
    )?)
}

/// A chain of 64 modules below the top.
fn depth(alloc: Global) -> Result<String, NoMemory> {
    let mut text = String::new(alloc);
    for level in 1..64u32 {
        let below = level + 1;
        text.push_str(format!(in alloc;
            "module m{level}(input clk); m{below} u(clk); {END}"
        )?.as_str())?;
    }
    text.push_str(
        "module m64(input clk); endmodule\nmodule top(input clk); m1 u(clk); endmodule\n",
    )?;
    Ok(text)
}

/// A word of one bit, and 65,536 in registers of two words.
fn words(alloc: Global) -> Result<String, NoMemory> {
    Ok(format!(in alloc;
        "{TOP}reg one;\ngenvar i;\nfor (i = 0; i < 32768; i = i + 1) begin : g\nreg [127:0] r;\nend\n{END}"
    )?)
}
