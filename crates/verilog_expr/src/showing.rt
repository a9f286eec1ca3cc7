// What a designer sees of a fault.
ghost use Rattle.std.specs.Prelude.{IfOk};
ghost use Rattle.verilog_expr.specs.Shown.{IsShownAs};

use crate::fault::ParseFault;
use crate::stop::Stop;
use ls_text::{At, Fault, NameList, NoMemory, Place};
use std::alloc::Global;
use verilog_lex::Token;

/// What a fault of the grammar shows: its code (15, 16 or 38), the place of its token, and the token's name but for 16.
pub fn shown(alloc: Global, tokens: &[Token], fault: ParseFault) -> Result<Fault, NoMemory>
    ensures { IfOk result (λ f. IsShownAs tokens.now fault f) }
{
    let (code, left, has_name) = match fault {
        ParseFault::Stuck(Stop::Syntax, left) => (15, left, true),
        ParseFault::Stuck(Stop::NotInProfile, left) => (38, left, true),
        ParseFault::Heavy(left) => (16, left, false),
    };
    let mut ids = Vec::new(alloc);
    let token = tokens.get(tokens.len().saturating_sub(left));
    let at = match token {
        Some(token) => token.at,
        None => Place {
            file: 0,
            line: 1,
            col: 1,
        },
    };
    if let Some(token) = token {
        if has_name {
            ids.push(token.text)?;
        }
    }
    Ok(Fault {
        code,
        at: At::Text(at),
        names: NameList::new(ids),
    })
}
