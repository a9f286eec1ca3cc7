// What a table of declarations has, and one declaration more.
ghost use Rattle.std.specs.Prelude.{◌≡◌, OnOk, [], map};
ghost use Rattle.std.specs.Option.{option_map};
ghost use Rattle.gen_unroll.specs.Views.{here_of};
ghost use Rattle.elaborate.specs.Tables.{declared_as, with_declaration};
ghost use Rattle.elaborate.specs.Views.{declaration_of, table_of};

use crate::declaration::Declaration;
use crate::declarations::Declarations;
use crate::declared_name::DeclaredName;
use gen_unroll::BlockId;
use indexmap::IndexMap;
use ls_text::{NameId, NoMemory};
use std::alloc::Global;

impl Declarations {
    /// No name.
    pub fn new(alloc: Global) -> Declarations
        ensures { table_of result ≡ [] }
    {
        Declarations {
            names: IndexMap::new(alloc),
        }
    }

    /// What a name is declared as in a block, or in the module itself, if it is.
    pub fn find(&self, block: Option<BlockId>, name: NameId) -> Option<Declaration>
        ensures { option_map declaration_of result ≡ declared_as (record { block = here_of block; name = name.0 }) (table_of self.now) }
    {
        let key = DeclaredName { block, name };
        match self.names.get(&key) {
            Some(found) => Some(*found),
            None => None,
        }
    }

    /// A declaration: a new name goes last, and one that stands there keeps its place.
    pub fn put(
        &mut self,
        block: Option<BlockId>,
        name: NameId,
        declaration: Declaration,
    ) -> Result<(), NoMemory>
        ensures { OnOk result (table_of self.new
            ≡ with_declaration (record { block = here_of block; name = name.0 }) (declaration_of declaration) (table_of self.old)) }
    {
        let key = DeclaredName { block, name };
        self.names.insert(key, declaration)?;
        Ok(())
    }
}
