// The parts of concatenations.
ghost use Rattle.std.specs.Prelude.{◌≡◌, IfOk};
ghost use Rattle.typed_ir.specs.Forms.{sized};
ghost use Rattle.width_rules.specs.Joins.{joined_of, added};

use crate::joined::Joined;
use crate::joined_bits::JoinedBits;
use crate::self_determined::Own;
use ls_text::NoMemory;
use std::alloc::Global;
use typed_ir::Typed;
use verilog_ast::Child;

/// One more part, right of those so far.
pub fn beside(alloc: Global, before: Joined, part: Own) -> Result<Joined, NoMemory>
    ensures { IfOk result (λ j. joined_of j ≡ added (joined_of before) part.typed.width (sized part.typed.form)) }
{
    match before {
        Joined::Nothing => Ok(Joined::Bits(JoinedBits { typed: part.typed })),
        Joined::Bits(before) => {
            let left = before.typed.into_inner();
            let right = part.typed.into_inner();
            if u16::from(left.width) + u16::from(right.width) > 128 {
                return Ok(Joined::TooWide);
            }
            let typed = Typed::concat(alloc, left, right)?;
            Ok(Joined::Bits(JoinedBits {
                typed: Child::new(alloc, typed)?,
            }))
        }
        Joined::TooWide => Ok(Joined::TooWide),
    }
}
