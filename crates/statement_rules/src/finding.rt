// The names that a declaration gives values, in the order of the text.
ghost use Rattle.std.specs.Prelude.{◌≡◌, ◌++◌, map, OnOk, IfOk};
ghost use Rattle.std.specs.Option.{option_map};
ghost use Rattle.verilog_ast.specs.Views.{expression_of, declared_of, declared_reg_of, port_of};
ghost use Rattle.statement_rules.specs.DeclaredValues as d;
ghost use Rattle.statement_rules.specs.DeclaredValues.{value_if, values_of, reg_values_of, port_values};
ghost use Rattle.statement_rules.specs.Views.{declared_value_of};

use crate::declared_value::DeclaredValue;
use crate::value_kind::ValueKind;
use ls_text::NoMemory;
use std::alloc::Global;
use verilog_ast::{Child, Expr, HeaderPort, Identifier, PortNet, RegVariable, Variable};

/// What takes the value of an output: a net without `reg`.
pub fn kind_of_net(net: PortNet) -> ValueKind
    ensures { result ≡ d.kind_of_net net }
{
    match net {
        PortNet::Nothing | PortNet::Wire => ValueKind::Net,
        PortNet::Reg => ValueKind::Variable,
    }
}

// Adds a name where it has a value.
fn add_if<'a>(
    found: &mut Vec<DeclaredValue<'a>>,
    kind: ValueKind,
    name: Identifier,
    value: &'a Option<Child<Expr>>,
) -> Result<(), NoMemory>
    ensures { OnOk result (map declared_value_of found.new.items ≡ map declared_value_of found.old.items ++ value_if kind name (option_map expression_of value.now)) }
{
    match value {
        None => Ok(()),
        Some(e) => {
            found.push(DeclaredValue {
                kind,
                name,
                value: e.get(),
            })?;
            Ok(())
        }
    }
}

/// Of nets, or of outputs.
pub fn values_of<'a>(
    alloc: Global,
    kind: ValueKind,
    variables: &'a [Variable],
) -> Result<Vec<DeclaredValue<'a>>, NoMemory>
    ensures { IfOk result (λ xs. map declared_value_of xs.items ≡ values_of kind (map declared_of variables.now)) }
{
    let mut found = Vec::new(alloc);
    for variable in variables {
        add_if(&mut found, kind, variable.name, &variable.value)?;
    }
    Ok(found)
}

/// Of variables.
pub fn reg_values_of<'a>(
    alloc: Global,
    regs: &'a [RegVariable],
) -> Result<Vec<DeclaredValue<'a>>, NoMemory>
    ensures { IfOk result (λ xs. map declared_value_of xs.items ≡ reg_values_of (map declared_reg_of regs.now)) }
{
    let mut found = Vec::new(alloc);
    for reg in regs {
        add_if(&mut found, ValueKind::Variable, reg.name, &reg.value)?;
    }
    Ok(found)
}

/// Of a port of the header; an input has none.
pub fn port_values<'a>(
    alloc: Global,
    port: &'a HeaderPort,
) -> Result<Vec<DeclaredValue<'a>>, NoMemory>
    ensures { IfOk result (λ xs. map declared_value_of xs.items ≡ port_values (port_of port.now)) }
{
    let mut found = Vec::new(alloc);
    match port {
        HeaderPort::Input(_, _, _, _) => {}
        HeaderPort::Output(_, net, _, variable) => {
            add_if(
                &mut found,
                kind_of_net(*net),
                variable.name,
                &variable.value,
            )?;
        }
        HeaderPort::Next(variable) => {
            add_if(
                &mut found,
                ValueKind::AsDeclared,
                variable.name,
                &variable.value,
            )?;
        }
    }
    Ok(found)
}
