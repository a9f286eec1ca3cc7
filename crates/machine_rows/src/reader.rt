// What one row gives, by the reader that its table names.
use crate::carrying::carried;
use crate::running::registers;
use crate::values::values;
use ls_text::NoMemory;
use row_tables::Reader;
use std::alloc::Global;

/// The readers of expressions and designs.
pub struct MachineReader;

impl Reader for MachineReader {
    fn read(
        &self,
        alloc: Global,
        name: &str,
        text: &[u8],
        _want: &[u8],
    ) -> Result<Vec<u8>, NoMemory> {
        match name {
            "values" => values(alloc, text),
            "registers" => registers(alloc, text),
            "carried" => carried(alloc, text),
            _ => Ok(Vec::from_slice(alloc, b"no such reader")?),
        }
    }
}
