// Steps that a walk tells, and names that it declares.
ghost use Rattle.std.specs.Prelude.{◌≡◌, ◌++◌, ◌∷◌, [], OnOk};
ghost use Rattle.width_rules.specs.Entries.{around};
ghost use Rattle.width_rules.specs.Found.{meaning_of};
ghost use Rattle.gen_unroll.specs.Declarations.{declared};
ghost use Rattle.gen_unroll.specs.Unrolled.{override_of, behind};
ghost use Rattle.gen_unroll.specs.Views.{state_of, steps_of, step_of, override_view};

use crate::naming::declare;
use crate::parameter_sort::ParameterSort;
use crate::step::Step;
use crate::walk::Walk;
use ls_text::NoMemory;
use typed_ir::Const;
use verilog_ast::Identifier;
use width_rules::Entry;

/// One step more.
pub fn tell<'a>(w: &mut Walk<'a, '_>, step: Step<'a>) -> Result<(), NoMemory>
    ensures steps { OnOk result (steps_of w.new ≡ steps_of w.old ++ step_of step.entry ∷ []) }
    ensures state { OnOk result (state_of w.new ≡ state_of w.old) }
    ensures around { OnOk result (around w.new.scope ≡ around w.old.scope) }
{
    w.steps.push(step)?;
    Ok(())
}

/// One name more in reach.
pub fn enter(w: &mut Walk<'_, '_>, name: Identifier, entry: Entry) -> Result<(), NoMemory>
    ensures steps { OnOk result (steps_of w.new ≡ steps_of w.old) }
    ensures state { OnOk result (state_of w.new ≡ record (state_of w.old) { scope = declared (state_of w.old).scope name (meaning_of entry) }) }
    ensures around { OnOk result (around w.new.scope ≡ around w.old.scope) }
{
    declare(&mut w.scope, name, entry)
}

/// The override of the next parameter of this sort, which is behind then.
pub fn next_override(w: &mut Walk<'_, '_>, sort: ParameterSort) -> Option<Const>
    ensures value { override_view result ≡ override_of sort (state_of w.old) }
    ensures steps { steps_of w.new ≡ steps_of w.old }
    ensures state { state_of w.new ≡ behind sort (state_of w.old) }
    ensures names { (state_of w.new).scope ≡ (state_of w.old).scope }
    ensures around { around w.new.scope ≡ around w.old.scope }
{
    match sort {
        ParameterSort::Local => None,
        ParameterSort::Overridable => match w.overrides.split_first() {
            Some((first, rest)) => {
                w.overrides = rest;
                *first
            }
            None => None,
        },
    }
}
