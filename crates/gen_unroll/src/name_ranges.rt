// Declarations of several names with one range.
ghost use Rattle.std.specs.Prelude.{◌≡◌, map, OnOk};
ghost use Rattle.std.specs.Option.{option_map};
ghost use Rattle.verilog_ast.specs.declared.port_net.PortNet.TheVariants as net;
ghost use Rattle.verilog_ast.specs.Views.{declared_of, declared_reg_of};
ghost use Rattle.typed_ir.specs.declared.signal_kind.SignalKind.TheVariants as kind;
ghost use Rattle.gen_unroll.specs.Declarations.{declared_name, declared_reg_name};
ghost use Rattle.gen_unroll.specs.Views.{bit_range_of, here_of};
ghost use Rattle.gen_unroll.specs.Signals.{kind_of_net, with_ports, with_nets};
ghost use Rattle.gen_unroll.specs.TableViews.{signals_of, IsPlaced};

use crate::bit_range::BitRange;
use crate::block_id::BlockId;
use crate::declaring::{declare_net, declare_port, kind_of_net};
use crate::table::Table;
use ls_text::NoMemory;
use typed_ir::SignalKind;
use verilog_ast::{Identifier, PortNet, RegVariable, Variable};

/// `input`, in the body.
pub fn declare_inputs(
    table: &mut Table,
    here: Option<BlockId>,
    net: PortNet,
    range: Option<BitRange>,
    signed: bool,
    names: &[Identifier],
) -> Result<(), NoMemory>
    requires { IsPlaced table.old }
    ensures signals { OnOk result (signals_of table.new ≡ with_ports (here_of here) kind.Input net (option_map bit_range_of range) signed names.now (signals_of table.old)) }
    ensures placed { OnOk result (IsPlaced table.new) }
{
    for name in names {
        declare_port(table, here, SignalKind::Input, net, range, signed, *name)?;
    }
    Ok(())
}

/// `output`, in the body.
pub fn declare_outputs(
    table: &mut Table,
    here: Option<BlockId>,
    net: PortNet,
    range: Option<BitRange>,
    signed: bool,
    ports: &[Variable],
) -> Result<(), NoMemory>
    requires { IsPlaced table.old }
    ensures signals { OnOk result (signals_of table.new
        ≡ with_ports (here_of here) (kind_of_net net) net (option_map bit_range_of range) signed (map declared_name (map declared_of ports.now)) (signals_of table.old)) }
    ensures placed { OnOk result (IsPlaced table.new) }
{
    let kind = kind_of_net(net);
    for port in ports {
        declare_port(table, here, kind, net, range, signed, port.name)?;
    }
    Ok(())
}

/// `wire`
pub fn declare_wires(
    table: &mut Table,
    here: Option<BlockId>,
    range: Option<BitRange>,
    signed: bool,
    nets: &[Variable],
) -> Result<(), NoMemory>
    requires { IsPlaced table.old }
    ensures signals { OnOk result (signals_of table.new
        ≡ with_nets (here_of here) net.Wire (option_map bit_range_of range) signed (map declared_name (map declared_of nets.now)) (signals_of table.old)) }
    ensures placed { OnOk result (IsPlaced table.new) }
{
    for one in nets {
        declare_net(table, here, PortNet::Wire, range, signed, one.name)?;
    }
    Ok(())
}

/// `reg`
pub fn declare_regs(
    table: &mut Table,
    here: Option<BlockId>,
    range: Option<BitRange>,
    signed: bool,
    regs: &[RegVariable],
) -> Result<(), NoMemory>
    requires { IsPlaced table.old }
    ensures signals { OnOk result (signals_of table.new
        ≡ with_nets (here_of here) net.Reg (option_map bit_range_of range) signed (map declared_reg_name (map declared_reg_of regs.now)) (signals_of table.old)) }
    ensures placed { OnOk result (IsPlaced table.new) }
{
    for one in regs {
        declare_net(table, here, PortNet::Reg, range, signed, one.name)?;
    }
    Ok(())
}
