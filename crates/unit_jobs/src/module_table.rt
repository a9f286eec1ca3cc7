// Modules by their names.
ghost use Rattle.std.specs.Prelude.{◌≡◌, map};
ghost use Rattle.unit_jobs.specs.Tables.{key_of, name_of};

use indexmap::IndexMap;
use ls_text::NameId;
use std::alloc::Global;
use std::sync::Arc;
use verilog_ast::Module;

/// Modules in the order of the text, no two of one name, which jobs share. A module is found by the hash of its name.
#[derive(Drop)]
pub struct ModuleTable {
    pub modules: IndexMap<NameId, Arc<Module, Global>>,
    ghost named: { map key_of modules.entries ≡ map name_of modules.entries },
}
