// The names of a module's parameters and localparams, outside of its generate blocks.
ghost use Rattle.std.specs.Prelude.{◌≡◌, ◌++◌, map, IfOk, OnOk};
ghost use Rattle.verilog_ast.specs.Declarations.{assigned_name, header_parameter_name};
ghost use Rattle.verilog_ast.specs.Views.{parameter_of, header_parameter_of, plain_item_of, generate_item_of, item_of, items_of, declaration_of};
ghost use Rattle.module_registry.specs.Constants as c;

use ls_text::NoMemory;
use std::alloc::Global;
use verilog_ast::{
    GenerateItem, HeaderParameter, Identifier, Item, ModuleBody, Parameter, PlainItem,
};

fn add_header(names: &mut Vec<Identifier>, all: &[HeaderParameter]) -> Result<(), NoMemory>
    ensures { OnOk result (names.new.items ≡ names.old.items ++ map header_parameter_name (map header_parameter_of all.now)) }
{
    for one in all {
        names.push(one.parameter.name)?;
    }
    Ok(())
}

fn add_parameters(names: &mut Vec<Identifier>, all: &[Parameter]) -> Result<(), NoMemory>
    ensures { OnOk result (names.new.items ≡ names.old.items ++ map assigned_name (map parameter_of all.now)) }
{
    for one in all {
        names.push(one.name)?;
    }
    Ok(())
}

fn add_plain(names: &mut Vec<Identifier>, item: &PlainItem) -> Result<(), NoMemory>
    ensures { OnOk result (names.new.items ≡ names.old.items ++ c.item_constants (plain_item_of item.now)) }
{
    match item {
        PlainItem::LocalParameter(_, _, all) => add_parameters(names, all.as_slice()),
        PlainItem::Wire(_, _, _)
        | PlainItem::Reg(_, _, _)
        | PlainItem::Genvar(_, _)
        | PlainItem::Assign(_, _)
        | PlainItem::Combinational(_, _)
        | PlainItem::Clocked(_, _, _)
        | PlainItem::Instances(_, _, _) => Ok(()),
    }
}

fn add_generated(names: &mut Vec<Identifier>, item: &GenerateItem) -> Result<(), NoMemory>
    ensures { OnOk result (names.new.items ≡ names.old.items ++ c.item_constants (generate_item_of item.now)) }
{
    match item {
        GenerateItem::Plain(item) => add_plain(names, item),
        GenerateItem::For(_, _, _, _) | GenerateItem::If(_) => Ok(()),
    }
}

fn add_region(names: &mut Vec<Identifier>, items: &[GenerateItem]) -> Result<(), NoMemory>
    ensures { OnOk result (names.new.items ≡ names.old.items ++ c.item_constants (items_of (map generate_item_of items.now))) }
{
    for item in items {
        add_generated(names, item)?;
    }
    Ok(())
}

fn add_item(names: &mut Vec<Identifier>, item: &Item) -> Result<(), NoMemory>
    ensures { OnOk result (names.new.items ≡ names.old.items ++ c.item_constants (item_of item.now)) }
{
    match item {
        Item::Parameter(_, _, all) => add_parameters(names, all.as_slice()),
        Item::Input(_, _, _, _) | Item::Output(_, _, _, _) => Ok(()),
        Item::Region(_, items) => add_region(names, items.as_slice()),
        Item::Item(item) => add_generated(names, item),
    }
}

fn add_items(names: &mut Vec<Identifier>, items: &[Item]) -> Result<(), NoMemory>
    ensures { OnOk result (names.new.items ≡ names.old.items ++ c.item_constants (items_of (map item_of items.now))) }
{
    for item in items {
        add_item(names, item)?;
    }
    Ok(())
}

/// The names of a module's parameters and localparams outside of its generate blocks: those of the header, and then those of the items,
/// in the order of the text (IEEE Std 1364-2005, 4.10).
pub fn constant_names(alloc: Global, of: &ModuleBody) -> Result<Vec<Identifier>, NoMemory>
    ensures { IfOk result (λ ns. ns.items ≡ c.constants_of (declaration_of of.now)) }
{
    let mut names = Vec::new(alloc);
    add_header(&mut names, of.parameters.as_slice())?;
    add_items(&mut names, of.items.as_slice())?;
    Ok(names)
}
