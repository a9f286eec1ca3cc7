// The names that an instance has to know of its module.
ghost use Rattle.std.specs.Prelude.{◌≡◌, IfOk};

use crate::inputs::inputs_of;
use crate::module_names::ModuleNames;
use crate::parameters::parameters_of;
use crate::ports::header_ports;
use ls_text::NoMemory;
use std::alloc::Global;
use verilog_ast::ModuleBody;

impl<'a> ModuleNames<'a> {
    /// The names of a module.
    pub fn of(alloc: Global, body: &'a ModuleBody) -> Result<ModuleNames<'a>, NoMemory>
        ensures { IfOk result (λ n. n.body.now ≡ body.now) }
    {
        let parameters = parameters_of(alloc, body)?;
        let ports = header_ports(alloc, &body.ports)?;
        let inputs = inputs_of(alloc, body)?;
        Ok(ModuleNames {
            body,
            parameters,
            ports,
            inputs,
        })
    }
}
