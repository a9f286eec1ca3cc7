// A writer of std that fails in the middle.
use std::io;

/// A writer that takes a byte at each write, up to so many, and then fails, or takes nothing where it is full.
#[derive(Drop)]
pub struct BrokenWriter {
    pub bytes: Vec<u8>,
    pub most: usize,
    pub is_full: bool,
}

impl io::Write for BrokenWriter {
    fn write(&mut self, buf: &[u8]) -> io::Result<usize> {
        let Some(byte) = buf.first() else {
            return Ok(0);
        };
        if self.bytes.len() < self.most {
            self.bytes.push(*byte)?;
            return Ok(1);
        }
        if self.is_full {
            return Ok(0);
        }
        Err(io::ErrorKind::Other.into())
    }

    fn flush(&mut self) -> io::Result<()> {
        Ok(())
    }
}
