// A reader of std that fails in the middle.
use std::io;

/// A reader that gives a byte at each read, up to so many of its bytes, and then fails.
#[derive(Drop)]
pub struct BrokenReader {
    pub bytes: Vec<u8>,
    pub given: usize,
    pub most: usize,
}

impl io::Read for BrokenReader {
    fn read(&mut self, buf: &mut [u8]) -> io::Result<usize> {
        if self.given >= self.most || self.given >= self.bytes.len() || buf.is_empty() {
            return Err(io::ErrorKind::Other.into());
        }
        buf[0] = self.bytes[self.given];
        self.given += 1;
        Ok(1)
    }
}
