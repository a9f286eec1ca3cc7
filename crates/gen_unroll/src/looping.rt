// The turns of a loop, all of them before its first block.
ghost use Rattle.std.specs.Prelude.{◌≡◌, ◌≤◌, ◌==◌, not, map, length, IfOk};
ghost use Rattle.verilog_ast.specs.Views.{expression_of, head_of};
ghost use Rattle.width_rules.specs.Entries.{scope_of, around};
ghost use Rattle.gen_unroll.specs.Unrolled.{assignable, assigned, in_turn, turns_from, turns, loop_turns, holds};
ghost use Rattle.ls_text.specs.Answers.{Answers};
ghost use Rattle.gen_unroll.specs.Values.{constant_of};

use crate::constants::evaluated;
use crate::naming::declare;
use crate::parameters::genvar_value;
use ls_text::{Place, Refusal};
use std::alloc::Global;
use typed_ir::Const;
use verilog_ast::{Expr, Identifier, Loop};
use width_rules::{Entry, Scope, refused, refused_at};

/// Whether a condition holds: it isn't zero.
#[tactic(auto, using(crate::proofs::Values::answers))]
pub fn holds(alloc: Global, scope: &Scope, condition: &Expr) -> Result<bool, Refusal>
    ensures { Answers result (λ b. b) (holds (scope_of scope.now) (expression_of condition.now)) }
{
    let value = evaluated(alloc, scope, condition)?;
    Ok(value.bits.value() != 0)
}

// Whether a loop may assign a name: else 29 where no expression can use it, and 33.
#[tactic(auto, using(crate::proofs::Values::answers))]
fn assignable(alloc: Global, scope: &Scope, name: Identifier) -> Result<(), Refusal>
    ensures { Answers result (λ x. x) (assignable name (scope_of scope.now name.name.0)) }
{
    match scope.find(name.name) {
        Entry::Genvar | Entry::Turn(_) => Ok(()),
        Entry::Constant(_) | Entry::Signal(_) => Err(refused_at(alloc, 33, name)),
        Entry::Unknown => Err(refused_at(alloc, 29, name)),
    }
}

// The two names that a loop assigns: 33 at the second one where it is another than the first.
#[tactic(auto, unfolding(crate::specs::Unrolled::assigned), using(crate::proofs::Values::answers))]
fn assigned(alloc: Global, scope: &Scope, head: &Loop) -> Result<(), Refusal>
    ensures { Answers result (λ x. x) (assigned (scope_of scope.now) (head_of head.now)) }
{
    assignable(alloc, scope, head.start.name)?;
    assignable(alloc, scope, head.step.name)?;
    if head.start.name.name == head.step.name.name {
        Ok(())
    } else {
        Err(refused_at(alloc, 33, head.step.name))
    }
}

// Whether there is a turn with this value, which the genvar holds from here on.
#[tactic(auto, using(crate::proofs::Values::answers))]
fn enters(alloc: Global, scope: &mut Scope, head: &Loop, value: Const) -> Result<bool, Refusal>
    ensures answer { Answers result (λ b. b) (holds (in_turn (scope_of scope.old) head.now.start.name (constant_of value)) (expression_of head.now.condition)) }
    ensures names { IfOk result (λ _. scope_of scope.new ≡ in_turn (scope_of scope.old) head.now.start.name (constant_of value)) }
    ensures around { IfOk result (λ _. around scope.new ≡ around scope.old) }
{
    declare(scope, head.start.name, Entry::Turn(value))?;
    holds(alloc, scope, head.condition.get())
}

// The values of the genvar from this turn on, at most so many: the next one is refused with 41 at the loop.
#[tactic(auto, using(crate::proofs::Counting::turning, crate::proofs::Scoping::scoping))]
fn turns_from(
    alloc: Global,
    scope: &mut Scope,
    at: Place,
    head: &Loop,
    limit: u32,
    first: Const,
) -> Result<Vec<Const>, Refusal>
    ensures answer { Answers result (λ vs. map constant_of vs.items) (turns_from at (head_of head.now) (scope_of scope.old) limit (constant_of first)) }
    ensures few { IfOk result (λ vs. length vs.items ≤ limit) }
    ensures around { IfOk result (λ _. around scope.new ≡ around scope.old) }
{
    let mut values = Vec::new(alloc);
    let mut value = first;
    let mut left = limit;
    'turns: loop {
        let more = match enters(alloc, scope, head, value) {
            Ok(more) => more,
            Err(refusal) => return Err(refusal),
        };
        if !more {
            return Ok(values);
        }
        if left == 0 {
            return Err(refused(alloc, 41, at, None));
        }
        let next = match evaluated(alloc, scope, head.step.value.get()) {
            Ok(next) => next,
            Err(refusal) => return Err(refusal),
        };
        values.push(value)?;
        value = genvar_value(next);
        left -= 1;
    }
}

// The start and then all turns.
#[tactic(auto, using(crate::proofs::Values::answers))]
fn turns(
    alloc: Global,
    scope: &mut Scope,
    at: Place,
    head: &Loop,
    limit: u32,
) -> Result<Vec<Const>, Refusal>
    ensures answer { Answers result (λ vs. map constant_of vs.items) (turns at (head_of head.now) (scope_of scope.old) limit) }
    ensures few { IfOk result (λ vs. length vs.items ≤ limit) }
    ensures around { IfOk result (λ _. around scope.new ≡ around scope.old) }
{
    let start = evaluated(alloc, scope, head.start.value.get())?;
    turns_from(alloc, scope, at, head, limit, genvar_value(start))
}

/// The names that a loop assigns, its start, and then its turns one by one (IEEE Std 1364-2005, 12.4.1).
///
/// Faults: 29 UnknownName and 33 BadTarget at the names that it assigns; those of its start, condition and step; and 41 GenLimit at the
/// loop where it has more turns than `limit`. Else want of memory.
#[tactic(auto, using(crate::proofs::Values::answers, crate::proofs::Counting::loop_counted, crate::proofs::Counting::loop_refused))]
pub fn loop_turns(
    alloc: Global,
    scope: &mut Scope,
    at: Place,
    head: &Loop,
    limit: u32,
) -> Result<Vec<Const>, Refusal>
    ensures answer { Answers result (λ vs. map constant_of vs.items) (loop_turns at (head_of head.now) (scope_of scope.old) limit) }
    ensures few { IfOk result (λ vs. length vs.items ≤ limit) }
    ensures names { IfOk result (λ _. scope_of scope.new ≡ scope_of scope.old) }
    ensures around { IfOk result (λ _. around scope.new ≡ around scope.old) }
{
    assigned(alloc, scope, head)?;
    scope.open_block()?;
    declare(scope, head.start.name, Entry::Genvar)?;
    match turns(alloc, scope, at, head, limit) {
        Ok(values) => {
            scope.close_block();
            Ok(values)
        }
        Err(refusal) => Err(refusal),
    }
}
