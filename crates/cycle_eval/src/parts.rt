// What of a design a table of its registers shows, and what carrying asks of them.
ghost use Rattle.std.specs.Prelude.{◌≡◌, ◌<◌, IsTrue, length, slice_get};
ghost use Rattle.typed_ir.specs.Flats.{are_below};
ghost use Rattle.cycle_eval.specs.Designs.{design_flat, instances_of, signals_of};
ghost use Rattle.cycle_eval.specs.Kits.{Fits, regs_of, reset_of};
ghost use Rattle.reg_transform.specs.Beginnings.{reset_in};
ghost use Rattle.reg_transform.specs.Regs.{registers_in};

use crate::design::Design;
use bits::Bits;
use reg_transform::{RegisterLayout, Regs};
use state_layout::SlotState;
use typed_ir::{InstanceName, RegisterId, Signal, SignalId};

impl Design {
    /// The instances, each behind the one that it stands in.
    pub fn instances(&self) -> &[InstanceName]
        ensures { result.now ≡ instances_of self.now }
    {
        &self.linked.design.instances.rows
    }

    /// The signals, each with the number of its instance.
    pub fn signals(&self) -> &[Signal]
        ensures { result.now ≡ signals_of self.now }
    {
        &self.linked.design.signals
    }

    /// The signals that are registers, in order.
    pub fn registers(&self) -> &[SignalId]
        ensures numbers { result.now ≡ (design_flat self.now).registers }
        ensures there { IsTrue (are_below result.now (length (signals_of self.now))) }
    {
        &self.linked.design.registers
    }

    /// The registers, each by its instance, its module and its name.
    pub fn regs(&self) -> Regs<'_>
        ensures { registers_in result ≡ regs_of (design_flat self.now) }
    {
        self.register_layout().regs
    }

    /// The registers, where they stand in a state, and what each has at the beginning.
    pub(crate) fn register_layout(&self) -> RegisterLayout<'_>
        ensures registers { registers_in result.regs ≡ regs_of (design_flat self.now) }
        ensures reset { reset_in result.regs ≡ reset_of (design_flat self.now) }
    {
        let design = &self.linked.design;
        RegisterLayout {
            regs: Regs {
                instances: &design.instances,
                signals: &design.signals,
                registers: &design.registers,
            },
            slots: &self.layout,
        }
    }

    /// The value that a register has in a state of the design, with its width.
    pub fn read(&self, state: &SlotState, register: u32) -> Bits
        requires fits { Fits (design_flat self.now) state.now }
        requires within { register < length (design_flat self.now).registers }
        ensures { slice_get state.now register ≡ Some (result.width, result.value) }
    {
        state.read(RegisterId(register as usize))
    }
}
