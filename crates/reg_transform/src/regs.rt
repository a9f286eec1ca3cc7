// The registers of a design.
ghost use Rattle.std.specs.Prelude.{IsTrue, length};
ghost use Rattle.typed_ir.specs.Flats.{are_below, are_within};

use typed_ir::{InstanceTable, Signal, SignalId};

/// The registers of a design among its signals, each in an instance of its table. Contracts see them as the list `registers_in`.
#[derive(Drop)]
pub struct Regs<'a> {
    pub instances: &'a InstanceTable,
    pub signals: &'a [Signal],
    pub registers: &'a [SignalId],
    ghost registers_there: { IsTrue (are_below registers.now (length signals.now)) },
    ghost signals_there: { IsTrue (are_within signals.now (length instances.now.rows.items)) },
}
