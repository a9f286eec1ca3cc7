// A sink that takes a byte at a time, and then none.
ghost use Rattle.std.specs.Prelude.{None};

use ls_port::{Sink, SinkRefusal};
use std::alloc::Global;

/// A sink in memory that takes one byte a call, up to a call that it refuses: it fails, or has no memory.
#[derive(Drop)]
pub struct ByteSink {
    pub bytes: Vec<u8>,
    calls: usize,
    refused: usize,
    is_dry: bool,
    faults: u64,
}

impl ByteSink {
    /// Nothing was written. The call of this number, from 0, is refused, where the sink is dry for want of memory.
    pub fn new(alloc: Global, refused: usize, is_dry: bool) -> ByteSink {
        ByteSink {
            bytes: Vec::new(alloc),
            calls: 0,
            refused,
            is_dry,
            faults: 0,
        }
    }
}

impl Sink for ByteSink {
    ghost written = { λ _. None };

    ghost faults = { λ s. s.faults };

    fn write(&mut self, bytes: &[u8]) -> Result<usize, SinkRefusal> {
        let call = self.calls;
        self.calls = self.calls.saturating_add(1);
        if call == self.refused {
            if self.is_dry {
                return Err(SinkRefusal::NoMemory);
            }
            self.faults = self.faults.saturating_add(1);
            return Err(SinkRefusal::Failed);
        }
        let Some(byte) = bytes.first() else {
            return Ok(0);
        };
        match self.bytes.push(*byte) {
            Ok(()) => Ok(1),
            Err(_) => Err(SinkRefusal::NoMemory),
        }
    }
}
