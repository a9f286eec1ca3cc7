// The modules of a design.
ghost use Rattle.std.specs.Prelude.{◌≡◌, map};
ghost use Rattle.module_names.specs.Entries.{key_of, name_of};

use crate::module_names::ModuleNames;
use indexmap::IndexMap;
use ls_text::NameId;
use std::alloc::Global;

/// The modules of a design, in the order of the text, no two of one name. A module is found by the hash of its name.
#[derive(Drop)]
pub struct Modules<'a> {
    pub(crate) alloc: Global,
    pub(crate) names: IndexMap<NameId, ModuleNames<'a>>,
    ghost named: { map key_of names.entries ≡ map name_of names.entries },
}
