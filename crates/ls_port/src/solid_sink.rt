// A sink in memory that never fails.
ghost use Rattle.std.specs.Prelude.{◌≡◌, ◌<◌, Some, [], length, IfOk};
ghost use Rattle.std.specs.Io.{WritesAtMost};
ghost use Rattle.std.specs.Io.KnownBytes.{WriteAppends};
ghost use Rattle.ls_port.specs.Causes.{HasSinkCause};

use crate::{Sink, SinkRefusal};
use std::alloc::Global;

/// A sink in memory that never fails. It may run out of memory.
#[derive(Drop)]
pub struct SolidSink {
    bytes: Vec<u8>,
}

impl SolidSink {
    ghost use Rattle.ls_port.specs.Memory.{solid_bytes};

    /// A sink to which nothing was written.
    pub fn new(alloc: Global) -> Self
        ensures { solid_bytes result ≡ [] }
    {
        SolidSink {
            bytes: Vec::new(alloc),
        }
    }

    /// The bytes that were written.
    pub fn bytes(&self) -> &[u8]
        ensures { result.now ≡ solid_bytes self.now }
    {
        &self.bytes
    }
}

impl Sink for SolidSink {
    ghost use Rattle.ls_port.specs.Memory.{solid_bytes};

    ghost written = { λ s. Some (solid_bytes s) };

    ghost faults = { λ _. 0 };

    /// Takes all the bytes.
    fn write(&mut self, bytes: &[u8]) -> Result<usize, SinkRefusal>
        ensures bound { WritesAtMost result bytes.now }
        ensures some { IfOk result (λ n. 0 < length bytes.now → 0 < n) }
        ensures appended { WriteAppends (Some (solid_bytes self.old)) (Some (solid_bytes self.new)) result bytes.now }
        ensures cause { HasSinkCause 0 0 result }
        ensures all { IfOk result (λ n. n ≡ length bytes.now) }
    {
        match self.bytes.extend_from_slice(bytes) {
            Ok(()) => Ok(bytes.len()),
            Err(_) => Err(SinkRefusal::NoMemory),
        }
    }
}
