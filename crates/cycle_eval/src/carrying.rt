// The beginning state of a design, and the state that an edit leaves it.
ghost use Rattle.std.specs.Prelude.{◌≡◌, IsTrue, IfOk, map, length};
ghost use Rattle.std.specs.Arc.{arc_value};
ghost use Rattle.typed_ir.specs.Flats.{are_below};
ghost use Rattle.cycle_eval.specs.Designs.{design_flat};
ghost use Rattle.cycle_eval.specs.Kits.{Fits, reset_of, carried_of};
ghost use Rattle.state_layout.specs.Words.{width_in};
ghost use Rattle.reg_transform.specs.Beginnings.{initial_in};
ghost use Rattle.reg_transform.specs.States.{paired};

use crate::design::Design;
use bits::Bits;
use ls_text::NoMemory;
use reg_ops::RegOp;
use reg_transform::carry_state;
use state_layout::{Layout, SlotState};
use std::alloc::Global;
use std::sync::Arc;
use typed_ir::{Signal, SignalId};

// The beginning values of these registers, by their layout.
fn beginnings(
    alloc: Global,
    layout: &Arc<Layout, Global>,
    signals: &[Signal],
    registers: &[SignalId],
) -> Result<SlotState, NoMemory>
    requires there { IsTrue (are_below registers.now (length signals.now)) }
    requires laid { arc_value layout.now ≡ map (width_in signals.now) registers.now }
    ensures { IfOk result (λ s. s ≡ paired (map (width_in signals.now) registers.now) (map (initial_in signals.now) registers.now)) }
{
    let mut values = Vec::new(alloc);
    for register in registers {
        let place = register.index();
        let signal = &signals[place];
        values.push(Bits::new(signal.width, signal.initial))?;
    }
    SlotState::filled(alloc, layout, &values)
}

impl Design {
    /// The registers at their beginning values.
    pub(crate) fn reset_state(&self, alloc: Global) -> Result<SlotState, NoMemory>
        ensures value { IfOk result (λ s. s ≡ reset_of (design_flat self.now)) }
        ensures fits { IfOk result (λ s. Fits (design_flat self.now) s) }
    {
        let design = &self.linked.design;
        beginnings(alloc, &self.layout, &design.signals, &design.registers)
    }

    /// The state of an older design, carried into this one under operations (`carry_state` of the crate `reg_transform`).
    pub(crate) fn carried(
        &self,
        alloc: Global,
        old: &Design,
        ops: &[RegOp],
        state: &SlotState,
    ) -> Result<SlotState, NoMemory>
        requires { Fits (design_flat old.now) state.now }
        ensures { IfOk result (λ s. s ≡ carried_of ops.now (design_flat old.now) (design_flat self.now) state.now) }
    {
        carry_state(
            alloc,
            &old.register_layout(),
            &self.register_layout(),
            ops,
            state,
        )
    }
}
