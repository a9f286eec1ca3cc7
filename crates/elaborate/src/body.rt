// Items of a module, checked.
ghost use Rattle.std.specs.Prelude.{◌≡◌, map, None, false};
ghost use Rattle.std.specs.Option.{option_map};
ghost use Rattle.verilog_ast.specs.Views.{kind_of, declared_of, declared_reg_of, instance_of, connections_of, plain_item_of, declaration_of as plain_module};
ghost use Rattle.gen_unroll.specs.ReachViews.{reach_of};
ghost use Rattle.gen_unroll.specs.Values.{constant_of};
ghost use Rattle.gen_unroll.specs.Views.{override_view, step_of};
ghost use Rattle.elaborate.specs.Checks as c;
ghost use Rattle.ls_text.specs.Answers.{Leads};
ghost use Rattle.elaborate.specs.Views.{declaration_of, checked_of};
ghost use Rattle.module_names.specs.Views.{modules_of};

use crate::checking::Checking;
use crate::child_instance::ChildInstance;
use crate::declaration::Declaration;
use crate::declaration_kind::DeclarationKind;
use crate::header::{body_port, header_port, list_port, plain, range_of_kind, variable};
use crate::overriding::overridden;
use clock_rules::connected;
use gen_unroll::{ParameterSort, Reach, Step};
use ls_text::Refusal;
use module_names::{ModuleNames, Modules};
use typed_ir::Const;
use verilog_ast::{
    Connections, Identifier, Instance, PlainItem, PortNet, RegVariable, Shape, Variable,
};
use width_rules::refused_at;

// A name of this kind, without a range.
fn named(kind: DeclarationKind, name: Identifier, signed: bool) -> Declaration
    ensures { declaration_of result ≡ c.declaration kind None signed name }
{
    Declaration {
        at: name.at,
        kind,
        range: None,
        signed,
    }
}

fn inputs(
    check: &mut Checking,
    here: &Reach,
    net: PortNet,
    shape: &Shape,
    names: &[Identifier],
) -> Result<(), Refusal>
    ensures { Leads result (checked_of check.new) (c.inputs (reach_of here.now) net (kind_of shape.now) names.now (checked_of check.old)) }
{
    let range = range_of_kind(check.alloc, &here.scope, shape)?;
    for name in names {
        body_port(
            check,
            here,
            DeclarationKind::Input(net),
            range,
            shape.signed,
            *name,
        )?;
    }
    Ok(())
}

fn outputs(
    check: &mut Checking,
    here: &Reach,
    net: PortNet,
    shape: &Shape,
    ports: &[Variable],
) -> Result<(), Refusal>
    ensures { Leads result (checked_of check.new) (c.outputs (reach_of here.now) net (kind_of shape.now) (map declared_of ports.now) (checked_of check.old)) }
{
    let range = range_of_kind(check.alloc, &here.scope, shape)?;
    for port in ports {
        body_port(
            check,
            here,
            DeclarationKind::Output(net),
            range,
            shape.signed,
            port.name,
        )?;
    }
    Ok(())
}

fn wires(
    check: &mut Checking,
    here: &Reach,
    shape: &Shape,
    nets: &[Variable],
) -> Result<(), Refusal>
    ensures { Leads result (checked_of check.new) (c.wires (reach_of here.now) (kind_of shape.now) (map declared_of nets.now) (checked_of check.old)) }
{
    let range = range_of_kind(check.alloc, &here.scope, shape)?;
    for net in nets {
        variable(
            check,
            here,
            PortNet::Wire,
            range,
            shape.signed,
            net.name,
            &net.value,
        )?;
    }
    Ok(())
}

fn regs(
    check: &mut Checking,
    here: &Reach,
    shape: &Shape,
    regs: &[RegVariable],
) -> Result<(), Refusal>
    ensures { Leads result (checked_of check.new) (c.regs (reach_of here.now) (kind_of shape.now) (map declared_reg_of regs.now) (checked_of check.old)) }
{
    let range = range_of_kind(check.alloc, &here.scope, shape)?;
    for reg in regs {
        variable(
            check,
            here,
            PortNet::Reg,
            range,
            shape.signed,
            reg.name,
            &reg.value,
        )?;
    }
    Ok(())
}

fn genvars(check: &mut Checking, here: &Reach, names: &[Identifier]) -> Result<(), Refusal>
    ensures { Leads result (checked_of check.new) (c.each (c.genvar (reach_of here.now)) names.now (checked_of check.old)) }
{
    for name in names {
        let declaration = named(DeclarationKind::Genvar, *name, false);
        plain(check, here, *name, declaration)?;
    }
    Ok(())
}

// An instance of a module: its name, and then its connections.
#[tactic(auto, unfolding(crate::specs::Checks::one_instance))]
fn one_instance(
    check: &mut Checking,
    here: &Reach,
    of: &ModuleNames<'_>,
    instantiated: Identifier,
    overrides: &[Option<Const>],
    instance: &Instance,
) -> Result<(), Refusal>
    ensures { Leads result (checked_of check.new)
        (c.one_instance (reach_of here.now) (plain_module of.now.body.now) instantiated (map override_view overrides.now) (instance_of instance.now) (checked_of check.old)) }
{
    let block = here.block();
    let declaration = named(DeclarationKind::Instance, instance.name, false);
    plain(check, here, instance.name, declaration)?;
    connected(check.alloc, &of.ports, &instance.connections)?;
    let overrides = Vec::from_slice(check.alloc, overrides)?;
    check.children.push(ChildInstance {
        block,
        name: instance.name,
        instantiated,
        overrides,
    })?;
    Ok(())
}

fn each_instance(
    check: &mut Checking,
    here: &Reach,
    of: &ModuleNames<'_>,
    instantiated: Identifier,
    overrides: &[Option<Const>],
    instances: &[Instance],
) -> Result<(), Refusal>
    ensures { Leads result (checked_of check.new)
        (c.each (c.one_instance (reach_of here.now) (plain_module of.now.body.now) instantiated (map override_view overrides.now)) (map instance_of instances.now) (checked_of check.old)) }
{
    for instance in instances {
        one_instance(check, here, of, instantiated, overrides, instance)?;
    }
    Ok(())
}

// Instances of a module: 20 NoModule, then its overrides, and then instance by instance.
#[tactic(auto, unfolding(crate::specs::Checks::instances))]
fn instances(
    check: &mut Checking,
    here: &Reach,
    modules: &Modules<'_>,
    instantiated: Identifier,
    overrides: &Option<Connections>,
    instances: &[Instance],
) -> Result<(), Refusal>
    ensures { Leads result (checked_of check.new)
        (c.instances (modules_of modules.now) (reach_of here.now) instantiated (option_map connections_of overrides.now) (map instance_of instances.now) (checked_of check.old)) }
{
    match modules.find(instantiated.name) {
        None => Err(refused_at(check.alloc, 20, instantiated)),
        Some(of) => {
            let values = overridden(check.alloc, &here.scope, &of.parameters, overrides)?;
            each_instance(check, here, of, instantiated, &values, instances)
        }
    }
}

// A parameter, and its value where it stands outside of generate blocks.
#[tactic(auto, unfolding(crate::specs::Checks::parameter))]
fn parameter(
    check: &mut Checking,
    here: &Reach,
    sort: ParameterSort,
    name: Identifier,
    value: Const,
) -> Result<(), Refusal>
    ensures { Leads result (checked_of check.new) (c.parameter (reach_of here.now) sort name (constant_of value) (checked_of check.old)) }
{
    let declaration = named(DeclarationKind::Parameter(sort), name, value.signed);
    plain(check, here, name, declaration)?;
    if here.block().is_none() {
        check.parameters.push(value)?;
    }
    Ok(())
}

fn item(
    check: &mut Checking,
    here: &Reach,
    modules: &Modules<'_>,
    item: &PlainItem,
) -> Result<(), Refusal>
    ensures { Leads result (checked_of check.new) (c.check_item (modules_of modules.now) (reach_of here.now) (plain_item_of item.now) (checked_of check.old)) }
{
    match item {
        PlainItem::Wire(_, shape, nets) => wires(check, here, shape, nets.as_slice()),
        PlainItem::Reg(_, shape, all) => regs(check, here, shape, all.as_slice()),
        PlainItem::Genvar(_, names) => genvars(check, here, names.as_slice()),
        PlainItem::Instances(of, overrides, all) => {
            instances(check, here, modules, *of, overrides, all.as_slice())
        }
        PlainItem::LocalParameter(_, _, _)
        | PlainItem::Assign(_, _)
        | PlainItem::Combinational(_, _)
        | PlainItem::Clocked(_, _, _) => Ok(()),
    }
}

/// A step of an unrolled module, checked before its names are in reach.
pub fn check_step(
    check: &mut Checking,
    here: &Reach,
    modules: &Modules<'_>,
    step: &Step<'_>,
) -> Result<(), Refusal>
    ensures { Leads result (checked_of check.new) (c.check_step (modules_of modules.now) (reach_of here.now) (step_of step.now) (checked_of check.old)) }
{
    match step {
        Step::Listed(name) => list_port(check, *name),
        Step::Port(port) => header_port(check, here, port),
        Step::Parameter(sort, name, value) => parameter(check, here, *sort, *name, *value),
        Step::Inputs(_, net, shape, names) => inputs(check, here, *net, shape, names),
        Step::Outputs(_, net, shape, ports) => outputs(check, here, *net, shape, ports),
        Step::Item(one) => item(check, here, modules, one),
        Step::Label(name) => {
            let declaration = named(DeclarationKind::Label, *name, false);
            plain(check, here, *name, declaration)
        }
        Step::Open(_, _) | Step::Close => Ok(()),
    }
}
