// What stands left of an assignment.
ghost use Rattle.std.specs.Prelude.{◌≡◌};
ghost use Rattle.typed_ir.specs.Stmts.{span_of};
ghost use Rattle.typed_ir.specs.Targets.{target_of};

use crate::lane::Lane;
use crate::reach::Reach;
use crate::span::Span;
use crate::typed::Typed;

/// One part of what stands left of an assignment.
#[derive(Drop)]
pub enum Target {
    /// Bits that are known.
    Fixed(Lane),
    /// Bits from a place that is known at run time; those outside the variable are dropped.
    Moving { reach: Reach, index: Typed },
}

/// The bits that an assignment to a part may write; of a select at run time all of its variable.
pub fn span_of(part: &Target) -> Span
    ensures { result ≡ span_of (target_of part.now) }
{
    match part {
        Target::Fixed(lane) => lane.span,
        Target::Moving { reach, .. } => Span {
            signal: reach.signal,
            low: 0,
            width: reach.total,
        },
    }
}
