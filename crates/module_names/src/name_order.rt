// Names in an order.
ghost use Rattle.std.specs.Prelude.{◌≡◌, ◌++◌, ◌∷◌, [], OnOk, OnErr};
ghost use Rattle.module_names.specs.Listings.{is_listed};

use indexmap::IndexSet;
use ls_text::{NameId, NoMemory};
use std::alloc::Global;
use std::marker::Model;
use verilog_ast::Identifier;

/// Names in an order, in which one may stand more than once. Whether a name stands there is found by its hash.
#[derive(Drop)]
pub struct NameOrder {
    all: Vec<Identifier>,
    known: IndexSet<u64>,
}

impl Model for NameOrder {
    ghost use Rattle.std.specs.Prelude.{◌≡◌, ℕ, List, nat_eq};
    ghost use Rattle.indexmap.specs.IndexSet.{contains};
    ghost use Rattle.verilog_ast.specs.declared.identifier.Identifier.{Identifier};
    ghost use Rattle.module_names.specs.Listings.{is_listed};

    ghost Value = { List Identifier };

    ghost view = { λ n. n.all.items };

    ghost invariant = { λ n. (q : ℕ) → contains nat_eq n.known q ≡ is_listed q n.all.items };
}

impl NameOrder {
    /// No name. It takes no memory.
    pub fn new(alloc: Global) -> NameOrder
        ensures { result ≡ [] }
    {
        NameOrder {
            all: Vec::new(alloc),
            known: IndexSet::new(alloc),
        }
    }

    /// Whether a name stands there.
    pub fn has(&self, name: NameId) -> bool
        ensures { result ≡ is_listed name.0 self.now }
    {
        self.known.contains(&name.0)
    }

    /// One name more, behind the others. Want of memory is `NoMemory`: then the names stay.
    pub fn push(&mut self, name: Identifier) -> Result<(), NoMemory>
        ensures more { OnOk result (self.new ≡ self.old ++ name ∷ []) }
        ensures same { OnErr result (self.new ≡ self.old) }
    {
        self.all.push(name)?;
        match self.known.insert(name.name.0) {
            Ok(_) => Ok(()),
            Err(_) => {
                let _taken = self.all.pop();
                Err(NoMemory)
            }
        }
    }

    /// The names, in their order.
    pub fn as_slice(&self) -> &[Identifier]
        ensures { result.now ≡ self.now }
    {
        self.all.as_slice()
    }
}
