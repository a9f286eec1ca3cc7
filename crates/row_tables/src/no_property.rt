// Tables of which nothing is said as a whole.
use crate::property::Property;
use crate::table::Table;
use ls_text::NoMemory;
use std::alloc::Global;

/// No property.
pub struct NoProperty;

impl Property for NoProperty {
    fn is_of(&self, _name: &str) -> bool {
        false
    }

    fn first_wrong(
        &self,
        _alloc: Global,
        _name: &str,
        _table: &Table,
    ) -> Result<Option<Vec<u8>>, NoMemory> {
        Ok(None)
    }
}
