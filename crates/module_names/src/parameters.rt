// The parameters of a module that an instance can override.
ghost use Rattle.std.specs.Prelude.{◌≡◌, ◌++◌, [], map, IfOk, OnOk};
ghost use Rattle.verilog_ast.specs.Declarations.{assigned_name, header_parameter_name};
ghost use Rattle.verilog_ast.specs.Views.{parameter_of, header_parameter_of, plain_item_of, generate_item_of, item_of, items_of, declaration_of};
ghost use Rattle.module_names.specs.Modules as m;

use crate::name_order::NameOrder;
use ls_text::NoMemory;
use std::alloc::Global;
use verilog_ast::{GenerateItem, HeaderParameter, Item, ModuleBody, Parameter, PlainItem};

fn add_header(names: &mut NameOrder, all: &[HeaderParameter]) -> Result<(), NoMemory>
    ensures { OnOk result (names.new ≡ names.old ++ map header_parameter_name (map header_parameter_of all.now)) }
{
    for one in all {
        names.push(one.parameter.name)?;
    }
    Ok(())
}

fn add_parameters(names: &mut NameOrder, all: &[Parameter]) -> Result<(), NoMemory>
    ensures { OnOk result (names.new ≡ names.old ++ map assigned_name (map parameter_of all.now)) }
{
    for one in all {
        names.push(one.name)?;
    }
    Ok(())
}

// An item without a generate construct declares neither an input nor a parameter that can be overridden.
fn is_no_port(item: &PlainItem)
    ensures parameters { m.item_parameters (plain_item_of item.now) ≡ [] }
    ensures inputs { m.item_inputs (plain_item_of item.now) ≡ [] }
{
    match item {
        PlainItem::Wire(_, _, _)
        | PlainItem::Reg(_, _, _)
        | PlainItem::LocalParameter(_, _, _)
        | PlainItem::Genvar(_, _)
        | PlainItem::Assign(_, _)
        | PlainItem::Combinational(_, _)
        | PlainItem::Clocked(_, _, _)
        | PlainItem::Instances(_, _, _) => {}
    }
}

/// An item of a generate block declares neither.
pub fn declares_no_port(item: &GenerateItem)
    ensures parameters { m.item_parameters (generate_item_of item.now) ≡ [] }
    ensures inputs { m.item_inputs (generate_item_of item.now) ≡ [] }
{
    match item {
        GenerateItem::Plain(item) => is_no_port(item),
        GenerateItem::For(_, _, _, _) | GenerateItem::If(_) => {}
    }
}

fn add_item(names: &mut NameOrder, item: &Item) -> Result<(), NoMemory>
    ensures { OnOk result (names.new ≡ names.old ++ m.item_parameters (item_of item.now)) }
{
    match item {
        Item::Parameter(_, _, all) => add_parameters(names, all.as_slice()),
        Item::Input(_, _, _, _) | Item::Output(_, _, _, _) | Item::Region(_, _) => Ok(()),
        Item::Item(item) => {
            declares_no_port(item);
            Ok(())
        }
    }
}

fn add_items(names: &mut NameOrder, items: &[Item]) -> Result<(), NoMemory>
    ensures { OnOk result (names.new ≡ names.old ++ m.item_parameters (items_of (map item_of items.now))) }
{
    for item in items {
        add_item(names, item)?;
    }
    Ok(())
}

/// The parameters of a module that an instance can override, in the order of the text (IEEE Std 1364-2005, 12.2).
pub fn parameters_of(alloc: Global, of: &ModuleBody) -> Result<NameOrder, NoMemory>
    ensures { IfOk result (λ ns. ns ≡ m.parameters_of (declaration_of of.now)) }
{
    let mut names = NameOrder::new(alloc);
    add_header(&mut names, of.parameters.as_slice())?;
    add_items(&mut names, of.items.as_slice())?;
    Ok(names)
}
