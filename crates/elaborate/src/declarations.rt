// The names that a module declares.
use crate::declaration::Declaration;
use crate::declared_name::DeclaredName;
use indexmap::IndexMap;

/// The names that a module declares, those of its blocks too, in the order of their declarations. A name is found by its hash.
#[derive(Drop)]
pub struct Declarations {
    pub names: IndexMap<DeclaredName, Declaration>,
}
