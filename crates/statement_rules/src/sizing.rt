// Items, sized.
ghost use Rattle.std.specs.Prelude.{◌≡◌, ◌++◌, [], map, OnOk, IfErr};
ghost use Rattle.typed_ir.specs.Items.{item_of};
ghost use Rattle.verilog_ast.specs.Views.{declared_of, declared_reg_of, plain_item_of, port_of, statement_of};
ghost use Rattle.width_rules.specs.declared.writer.Writer.TheVariants as writer;
ghost use Rattle.width_rules.specs.Entries.{scope_of};
ghost use Rattle.width_rules.specs.Faults.{IsFirst};
ghost use Rattle.statement_rules.specs.Statements.{statement_faults};
ghost use Rattle.statement_rules.specs.DeclaredValues as d;
ghost use Rattle.statement_rules.specs.DeclaredValues.{values_of, reg_values_of, port_values, declaration_faults, declaration_initials};
ghost use Rattle.statement_rules.specs.SizedItems.{value_item, plain_items, plain_initials, plain_faults};
ghost use Rattle.statement_rules.specs.Views.{initial_of};

use crate::blocking::{add_clocked, add_combinational};
use crate::declaring::size_declared;
use crate::driving::size_assigns;
use crate::finding::{kind_of_net, port_values, reg_values_of, values_of};
use crate::item_list::ItemList;
use crate::value_kind::ValueKind;
use ls_text::Refusal;
use std::alloc::Global;
use verilog_ast::{HeaderPort, PlainItem, PortNet, RegVariable, Variable};
use width_rules::Scope;

/// Adds the sized items of a declaration, of the pairs of an `assign`, or of an `always` block, and the values at the beginning.
/// Instances, genvars and parameters add nothing.
#[tactic(auto, using(width_rules::proofs::Firsts::earlier, width_rules::proofs::Firsts::later, width_rules::proofs::Firsts::neither, crate::proofs::ListedItems::nothing_more))]
pub fn size_plain(
    alloc: Global,
    scope: &Scope,
    item: &PlainItem,
    list: &mut ItemList,
) -> Result<(), Refusal>
    ensures faultless { OnOk result (plain_faults (scope_of scope.now) (plain_item_of item.now) ≡ []) }
    ensures items { OnOk result (map item_of list.new.items.items ≡ map item_of list.old.items.items ++ plain_items (scope_of scope.now) (plain_item_of item.now)) }
    ensures initials { OnOk result (map initial_of list.new.initials.items ≡ map initial_of list.old.initials.items ++ plain_initials (scope_of scope.now) (plain_item_of item.now)) }
    ensures fault { IfErr result (IsFirst (plain_faults (scope_of scope.now) (plain_item_of item.now))) }
{
    match item {
        PlainItem::Wire(_, _, nets) => {
            size_variables(alloc, scope, ValueKind::Net, nets.as_slice(), list)
        }
        PlainItem::Reg(_, _, regs) => size_regs(alloc, scope, regs.as_slice(), list),
        PlainItem::Assign(_, pairs) => {
            size_assigns(alloc, scope, pairs.as_slice(), &mut list.items)
        }
        PlainItem::Combinational(at, body) => {
            add_combinational(alloc, scope, *at, body.get(), &mut list.items)
        }
        PlainItem::Clocked(at, _, body) => {
            add_clocked(alloc, scope, *at, body.get(), &mut list.items)
        }
        PlainItem::LocalParameter(_, _, _) => Ok(()),
        PlainItem::Genvar(_, _) => Ok(()),
        PlainItem::Instances(_, _, _) => Ok(()),
    }
}

// The same of variables.
fn size_regs(
    alloc: Global,
    scope: &Scope,
    regs: &[RegVariable],
    list: &mut ItemList,
) -> Result<(), Refusal>
    ensures faultless { OnOk result (declaration_faults (scope_of scope.now) (reg_values_of (map declared_reg_of regs.now)) ≡ []) }
    ensures items { OnOk result (map item_of list.new.items.items
        ≡ map item_of list.old.items.items ++ map (value_item (scope_of scope.now)) (reg_values_of (map declared_reg_of regs.now))) }
    ensures initials { OnOk result (map initial_of list.new.initials.items
        ≡ map initial_of list.old.initials.items ++ declaration_initials (scope_of scope.now) (reg_values_of (map declared_reg_of regs.now))) }
    ensures fault { IfErr result (IsFirst (declaration_faults (scope_of scope.now) (reg_values_of (map declared_reg_of regs.now)))) }
{
    let values = reg_values_of(alloc, regs)?;
    size_declared(alloc, scope, &values, list)
}

// The same of names whose values this takes.
fn size_variables(
    alloc: Global,
    scope: &Scope,
    kind: ValueKind,
    variables: &[Variable],
    list: &mut ItemList,
) -> Result<(), Refusal>
    ensures faultless { OnOk result (declaration_faults (scope_of scope.now) (values_of kind (map declared_of variables.now)) ≡ []) }
    ensures items { OnOk result (map item_of list.new.items.items
        ≡ map item_of list.old.items.items ++ map (value_item (scope_of scope.now)) (values_of kind (map declared_of variables.now))) }
    ensures initials { OnOk result (map initial_of list.new.initials.items
        ≡ map initial_of list.old.initials.items ++ declaration_initials (scope_of scope.now) (values_of kind (map declared_of variables.now))) }
    ensures fault { IfErr result (IsFirst (declaration_faults (scope_of scope.now) (values_of kind (map declared_of variables.now)))) }
{
    let values = values_of(alloc, kind, variables)?;
    size_declared(alloc, scope, &values, list)
}

/// The same of the outputs that a declaration of the body declares with this word, or with none.
pub fn size_outputs(
    alloc: Global,
    scope: &Scope,
    net: PortNet,
    ports: &[Variable],
    list: &mut ItemList,
) -> Result<(), Refusal>
    ensures faultless { OnOk result (declaration_faults (scope_of scope.now) (values_of (d.kind_of_net net) (map declared_of ports.now)) ≡ []) }
    ensures items { OnOk result (map item_of list.new.items.items
        ≡ map item_of list.old.items.items ++ map (value_item (scope_of scope.now)) (values_of (d.kind_of_net net) (map declared_of ports.now))) }
    ensures initials { OnOk result (map initial_of list.new.initials.items
        ≡ map initial_of list.old.initials.items ++ declaration_initials (scope_of scope.now) (values_of (d.kind_of_net net) (map declared_of ports.now))) }
    ensures fault { IfErr result (IsFirst (declaration_faults (scope_of scope.now) (values_of (d.kind_of_net net) (map declared_of ports.now)))) }
{
    size_variables(alloc, scope, kind_of_net(net), ports, list)
}

/// The same of a port that the header declares.
pub fn size_port(
    alloc: Global,
    scope: &Scope,
    port: &HeaderPort,
    list: &mut ItemList,
) -> Result<(), Refusal>
    ensures faultless { OnOk result (declaration_faults (scope_of scope.now) (port_values (port_of port.now)) ≡ []) }
    ensures items { OnOk result (map item_of list.new.items.items
        ≡ map item_of list.old.items.items ++ map (value_item (scope_of scope.now)) (port_values (port_of port.now))) }
    ensures initials { OnOk result (map initial_of list.new.initials.items
        ≡ map initial_of list.old.initials.items ++ declaration_initials (scope_of scope.now) (port_values (port_of port.now))) }
    ensures fault { IfErr result (IsFirst (declaration_faults (scope_of scope.now) (port_values (port_of port.now)))) }
{
    let values = port_values(alloc, port)?;
    size_declared(alloc, scope, &values, list)
}
