// What one row gives, by the calls that its table names.
use crate::calls::{
    bits_one_by_one, joined, quotients, runs_read, runs_written, shifts, sums, widths,
};
use crate::numbers::Numbers;
use ls_text::NoMemory;
use row_tables::Reader;
use std::alloc::Global;

/// The readers of values of bits.
pub struct BitReader;

impl Reader for BitReader {
    fn read(
        &self,
        alloc: Global,
        name: &str,
        text: &[u8],
        _want: &[u8],
    ) -> Result<Vec<u8>, NoMemory> {
        let numbers = Numbers::read(alloc, text)?;
        let mut out = Vec::new(alloc);
        match name {
            "sums" => sums(&mut out, &numbers)?,
            "quotients" => quotients(&mut out, &numbers)?,
            "bits_one_by_one" => bits_one_by_one(&mut out, &numbers)?,
            "shifts" => shifts(&mut out, &numbers)?,
            "runs_read" => runs_read(&mut out, &numbers)?,
            "runs_written" => runs_written(&mut out, &numbers)?,
            "joined" => joined(&mut out, &numbers)?,
            "widths" => widths(&mut out, &numbers)?,
            _ => out.extend_from_slice(b"no such reader ")?,
        }
        out.pop();
        Ok(out)
    }
}
