// The registers of a design and their slots.
ghost use Rattle.std.specs.Prelude.{◌≡◌};
ghost use Rattle.std.specs.Arc.{arc_value};
ghost use Rattle.reg_transform.specs.Registers.{widths_of};
ghost use Rattle.reg_transform.specs.Regs.{registers_in};

use crate::regs::Regs;
use state_layout::Layout;
use std::alloc::Global;
use std::sync::Arc;

/// The registers of a design, where they stand in its states, and (in their signals) what each has at the beginning.
#[derive(Drop)]
pub struct RegisterLayout<'a> {
    pub regs: Regs<'a>,
    pub slots: &'a Arc<Layout, Global>,
    ghost laid: { arc_value slots.now ≡ widths_of (registers_in regs) },
}
