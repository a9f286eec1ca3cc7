// What declarations make of the values of parameters.
ghost use Rattle.std.specs.Prelude.{◌≡◌};
ghost use Rattle.verilog_ast.specs.Views.{kind_of};
ghost use Rattle.width_rules.specs.Entries.{scope_of};
ghost use Rattle.gen_unroll.specs.Declarations.{parameter_type, as_declared};
ghost use Rattle.gen_unroll.specs.Unrolled.{genvar_value};
ghost use Rattle.ls_text.specs.Answers.{Answers};
ghost use Rattle.gen_unroll.specs.Values.{constant_of};
ghost use Rattle.gen_unroll.specs.Views.{parameter_type_of};

use crate::parameter_type::ParameterType;
use crate::ranges::range_value;
use ls_text::Refusal;
use std::alloc::Global;
use typed_ir::Const;
use verilog_ast::Shape;
use width_rules::Scope;

/// What a declaration says of the values of its parameters; or the first fault of its range.
#[tactic(auto, using(crate::proofs::Bounds::typed_range, crate::proofs::Bounds::typed_refused))]
pub fn parameter_type(alloc: Global, scope: &Scope, shape: &Shape) -> Result<ParameterType, Refusal>
    ensures { Answers result parameter_type_of (parameter_type (scope_of scope.now) (kind_of shape.now)) }
{
    match &shape.range {
        None => Ok(ParameterType {
            range: None,
            signed: shape.signed,
        }),
        Some(range) => match range_value(alloc, scope, range) {
            Ok(range) => Ok(ParameterType {
                range: Some(range),
                signed: shape.signed,
            }),
            Err(refusal) => Err(refusal),
        },
    }
}

/// A value as its declaration makes it: resized by its own sign where there is a range, signed where `signed` stands alone (IEEE Std
/// 1364-2005, 4.10.1).
pub fn as_declared(kind: ParameterType, value: Const) -> Const
    ensures { constant_of result ≡ as_declared (parameter_type_of kind) (constant_of value) }
{
    match kind.range {
        Some(range) => Const {
            bits: value.bits.resize(range.width, value.signed),
            signed: kind.signed,
        },
        None => Const {
            bits: value.bits,
            signed: kind.signed || value.signed,
        },
    }
}

/// What a genvar holds of a value: 32 bits, signed (IEEE Std 1364-2005, 12.4.1).
pub fn genvar_value(value: Const) -> Const
    ensures { constant_of result ≡ genvar_value (constant_of value) }
{
    Const {
        bits: value.bits.resize(32, value.signed),
        signed: true,
    }
}
