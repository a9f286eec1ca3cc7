// Flat designs.
ghost use Rattle.std.specs.Prelude.{◌<◌, ◌^◌, IsTrue, map, length};
ghost use Rattle.typed_ir.specs.Nodes.{are_legal};
ghost use Rattle.typed_ir.specs.FlatNodes.{node_of};
ghost use Rattle.typed_ir.specs.Flats.{signal_widths, are_clocked, are_below, are_within, flat_from, IsFlat};

use crate::instance_table::InstanceTable;
use crate::node::Node;
use crate::signal::Signal;
use crate::signal_id::SignalId;
use crate::stmt::Stmt;

/// All signals and nodes of a design, each instance copied out.
#[derive(Drop)]
pub struct Flat {
    pub instances: InstanceTable,
    pub signals: Vec<Signal>,
    /// The numbers of the signals that are registers, in order.
    pub registers: Vec<SignalId>,
    /// The numbers of the data inputs of the top.
    pub inputs: Vec<SignalId>,
    pub nodes: Vec<Node>,
    /// The clocked blocks.
    pub clocked: Vec<Stmt>,
    ghost signals_there: { IsTrue (are_within signals.items (length instances.rows.items)) },
    ghost legal: { IsTrue (are_legal (map node_of nodes.items) (signal_widths signals.items)) },
    ghost blocks: { IsTrue (are_clocked clocked.items (signal_widths signals.items)) },
    ghost registers_there: { IsTrue (are_below registers.items (length signals.items)) },
    ghost inputs_there: { IsTrue (are_below inputs.items (length signals.items)) },
    ghost few: { length nodes.items < 2 ^ 32 },
    ghost sound: { ∥ IsFlat (flat_from instances.rows.items signals.items registers.items inputs.items nodes.items clocked.items) ∥₁ },
}
