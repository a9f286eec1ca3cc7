// The overrides with which a module is unrolled once more.
ghost use Rattle.std.specs.Prelude.{◌≡◌, ◌++◌, map, IfOk, OnOk};
ghost use Rattle.verilog_ast.specs.Views.{parameter_of, header_parameter_of, plain_item_of, generate_item_of, item_of, items_of, declaration_of};
ghost use Rattle.gen_unroll.specs.Views.{override_view};
ghost use Rattle.gen_unroll.specs.declared.parameter_sort.ParameterSort.TheVariants as sort;
ghost use Rattle.gen_unroll.specs.Overriding as p;

use crate::parameter_sort::ParameterSort;
use ls_text::NoMemory;
use std::alloc::Global;
use typed_ir::Const;
use verilog_ast::{GenerateItem, HeaderParameter, Item, ModuleBody, Parameter, PlainItem};

fn add_header(sorts: &mut Vec<ParameterSort>, all: &[HeaderParameter]) -> Result<(), NoMemory>
    ensures { OnOk result (sorts.new.items ≡ sorts.old.items ++ p.sort_of_each sort.Overridable (map header_parameter_of all.now)) }
{
    for _ in all {
        sorts.push(ParameterSort::Overridable)?;
    }
    Ok(())
}

fn add_parameters(
    sorts: &mut Vec<ParameterSort>,
    sort: ParameterSort,
    all: &[Parameter],
) -> Result<(), NoMemory>
    ensures { OnOk result (sorts.new.items ≡ sorts.old.items ++ p.sort_of_each sort (map parameter_of all.now)) }
{
    for _ in all {
        sorts.push(sort)?;
    }
    Ok(())
}

fn add_plain(sorts: &mut Vec<ParameterSort>, item: &PlainItem) -> Result<(), NoMemory>
    ensures { OnOk result (sorts.new.items ≡ sorts.old.items ++ p.item_sorts (plain_item_of item.now)) }
{
    match item {
        PlainItem::LocalParameter(_, _, all) => {
            add_parameters(sorts, ParameterSort::Local, all.as_slice())
        }
        PlainItem::Wire(_, _, _)
        | PlainItem::Reg(_, _, _)
        | PlainItem::Genvar(_, _)
        | PlainItem::Assign(_, _)
        | PlainItem::Combinational(_, _)
        | PlainItem::Clocked(_, _, _)
        | PlainItem::Instances(_, _, _) => Ok(()),
    }
}

fn add_generated(sorts: &mut Vec<ParameterSort>, item: &GenerateItem) -> Result<(), NoMemory>
    ensures { OnOk result (sorts.new.items ≡ sorts.old.items ++ p.item_sorts (generate_item_of item.now)) }
{
    match item {
        GenerateItem::Plain(item) => add_plain(sorts, item),
        GenerateItem::For(_, _, _, _) | GenerateItem::If(_) => Ok(()),
    }
}

fn add_region(sorts: &mut Vec<ParameterSort>, items: &[GenerateItem]) -> Result<(), NoMemory>
    ensures { OnOk result (sorts.new.items ≡ sorts.old.items ++ p.item_sorts (items_of (map generate_item_of items.now))) }
{
    for item in items {
        add_generated(sorts, item)?;
    }
    Ok(())
}

fn add_item(sorts: &mut Vec<ParameterSort>, item: &Item) -> Result<(), NoMemory>
    ensures { OnOk result (sorts.new.items ≡ sorts.old.items ++ p.item_sorts (item_of item.now)) }
{
    match item {
        Item::Parameter(_, _, all) => {
            add_parameters(sorts, ParameterSort::Overridable, all.as_slice())
        }
        Item::Input(_, _, _, _) | Item::Output(_, _, _, _) => Ok(()),
        Item::Region(_, items) => add_region(sorts, items.as_slice()),
        Item::Item(item) => add_generated(sorts, item),
    }
}

fn add_items(sorts: &mut Vec<ParameterSort>, items: &[Item]) -> Result<(), NoMemory>
    ensures { OnOk result (sorts.new.items ≡ sorts.old.items ++ p.item_sorts (items_of (map item_of items.now))) }
{
    for item in items {
        add_item(sorts, item)?;
    }
    Ok(())
}

// Of each parameter and localparam outside of generate blocks, whether an instance can override it.
fn constant_sorts(alloc: Global, body: &ModuleBody) -> Result<Vec<ParameterSort>, NoMemory>
    ensures { IfOk result (λ ss. ss.items ≡ p.constant_sorts (declaration_of body.now)) }
{
    let mut sorts = Vec::new(alloc);
    add_header(&mut sorts, body.parameters.as_slice())?;
    add_items(&mut sorts, body.items.as_slice())?;
    Ok(sorts)
}

// Adds a value, where it can be overridden.
fn add_override(
    overrides: &mut Vec<Option<Const>>,
    sort: ParameterSort,
    value: Const,
) -> Result<(), NoMemory>
    ensures { OnOk result (map override_view overrides.new.items ≡ map override_view overrides.old.items ++ p.override_if sort value) }
{
    match sort {
        ParameterSort::Overridable => {
            overrides.push(Some(value))?;
            Ok(())
        }
        ParameterSort::Local => Ok(()),
    }
}

// The values of those that can be overridden.
fn overridden(
    alloc: Global,
    sorts: &[ParameterSort],
    parameters: &[Const],
) -> Result<Vec<Option<Const>>, NoMemory>
    ensures { IfOk result (λ os. map override_view os.items ≡ p.overrides_of sorts.now parameters.now) }
{
    let mut overrides = Vec::new(alloc);
    let mut rest = parameters;
    for sort in sorts {
        let Some((value, behind)) = rest.split_first() else {
            return Ok(overrides);
        };
        add_override(&mut overrides, *sort, *value)?;
        rest = behind;
    }
    Ok(overrides)
}

/// The overrides that give a module these values of its parameters and localparams outside of generate blocks, which stand in the order
/// of the text; or want of memory.
pub fn overrides_of(
    alloc: Global,
    body: &ModuleBody,
    parameters: &[Const],
) -> Result<Vec<Option<Const>>, NoMemory>
    ensures { IfOk result (λ os. map override_view os.items ≡ p.overrides_of (p.constant_sorts (declaration_of body.now)) parameters.now) }
{
    let sorts = constant_sorts(alloc, body)?;
    overridden(alloc, &sorts, parameters)
}
