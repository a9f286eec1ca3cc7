// What is said of a whole table.
use crate::table::Table;
use ls_text::NoMemory;
use std::alloc::Global;

/// What has to hold of whole tables, by names in the place of readers.
pub trait Property {
    /// Whether this name is that of a property, and not of a reader.
    fn is_of(&self, name: &str) -> bool;

    /// What of a table hasn't the property of this name, as a text; none where all has it.
    fn first_wrong(
        &self,
        alloc: Global,
        name: &str,
        table: &Table,
    ) -> Result<Option<Vec<u8>>, NoMemory>;
}
