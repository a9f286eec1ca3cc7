// Modules to a table of them by their names.
ghost use Rattle.std.specs.Prelude.{◌≡◌, [], IfOk, OnOk};
ghost use Rattle.std.specs.Option.{option_map};
ghost use Rattle.unit_jobs.specs.FirstModules.{first_modules, with_module};
ghost use Rattle.unit_jobs.specs.Jobs.{module_called};
ghost use Rattle.unit_jobs.specs.TableViews.{lent_module, modules_of};

use crate::module_table::ModuleTable;
use indexmap::IndexMap;
use ls_text::{NameId, NoMemory};
use std::alloc::Global;
use std::sync::Arc;
use verilog_ast::Module;

impl ModuleTable {
    // No module. It takes no memory.
    fn new(alloc: Global) -> ModuleTable
        ensures { modules_of result ≡ [] }
    {
        ModuleTable {
            modules: IndexMap::new(alloc),
        }
    }

    /// The module of a name.
    pub fn find(&self, name: NameId) -> Option<&Arc<Module, Global>>
        ensures { option_map lent_module result ≡ module_called name.0 (modules_of self.now) }
    {
        self.modules.get(&name)
    }

    // One module more, where none of its name stands there.
    #[tactic(auto, using(crate::proofs::Keys::found))]
    fn add(&mut self, alloc: Global, added: Module) -> Result<(), NoMemory>
        ensures { OnOk result (modules_of self.new ≡ with_module (modules_of self.old) added) }
    {
        let name = added.body.name.name;
        if self.find(name).is_some() {
            return Ok(());
        }
        let shared = Arc::new(alloc, added)?;
        self.modules.insert(name, shared)?;
        Ok(())
    }
}

/// A table of these modules, of each name the first.
pub fn modules_by_name(alloc: Global, modules: Vec<Module>) -> Result<ModuleTable, NoMemory>
    ensures { IfOk result (λ table. modules_of table ≡ first_modules [] modules.items) }
{
    let mut table = ModuleTable::new(alloc);
    for one in modules {
        table.add(alloc, one)?;
    }
    Ok(table)
}
