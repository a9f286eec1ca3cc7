// The modules of a design by their names.
ghost use Rattle.std.specs.Prelude.{◌≡◌, ◌++◌, ◌∷◌, [], None, length, OnOk, OnErr};
ghost use Rattle.std.specs.Option.{option_map};
ghost use Rattle.verilog_ast.specs.Views.{declaration_of};
ghost use Rattle.module_names.specs.Modules.{module_named};
ghost use Rattle.module_names.specs.Views.{module_of, modules_of};

use crate::module_names::ModuleNames;
use crate::modules::Modules;
use indexmap::IndexMap;
use ls_text::{NameId, NoMemory};
use std::alloc::Global;
use verilog_ast::Module;

impl<'a> Modules<'a> {
    /// No module. It takes no memory.
    pub fn new(alloc: Global) -> Modules<'a>
        ensures { modules_of result ≡ [] }
    {
        Modules {
            alloc,
            names: IndexMap::new(alloc),
        }
    }

    /// How many modules there are.
    pub fn len(&self) -> usize
        ensures { result ≡ length (modules_of self.now) }
    {
        self.names.len()
    }

    /// The module of a name.
    pub fn find(&self, name: NameId) -> Option<&ModuleNames<'a>>
        ensures { option_map module_of result ≡ module_named name.0 (modules_of self.now) }
    {
        self.names.get(&name)
    }

    /// One module more, behind the others. Want of memory is `NoMemory`: then the modules stay.
    pub fn add(&mut self, added: &'a Module) -> Result<(), NoMemory>
        requires { module_named added.now.body.name.name.0 (modules_of self.old) ≡ None }
        ensures more { OnOk result (modules_of self.new ≡ modules_of self.old ++ declaration_of added.now.body ∷ []) }
        ensures same { OnErr result (modules_of self.new ≡ modules_of self.old) }
    {
        let names = ModuleNames::of(self.alloc, &added.body)?;
        self.names.insert(added.body.name.name, names)?;
        Ok(())
    }
}
