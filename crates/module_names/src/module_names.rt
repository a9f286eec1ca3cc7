// A module, with the names that its instances have to know.
ghost use Rattle.std.specs.Prelude.{◌≡◌};
ghost use Rattle.verilog_ast.specs.Views.{declaration_of, ports_of};
ghost use Rattle.module_names.specs.Modules as m;

use crate::name_order::NameOrder;
use verilog_ast::ModuleBody;

/// A module, with the names that its instances have to know: the parameters that can be overridden, in the order of the text (IEEE Std
/// 1364-2005, 12.2), the ports in the order of its header, and the inputs (12.3).
#[derive(Drop)]
pub struct ModuleNames<'a> {
    pub body: &'a ModuleBody,
    pub parameters: NameOrder,
    pub ports: NameOrder,
    pub inputs: NameOrder,
    ghost overridden: { parameters ≡ m.parameters_of (declaration_of body.now) },
    ghost connected: { ports ≡ m.header_ports (ports_of body.now.ports) },
    ghost driven: { inputs ≡ m.inputs_of (declaration_of body.now) },
}
