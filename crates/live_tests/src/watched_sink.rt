// A sink that sees a settled display.
ghost use Rattle.std.specs.Prelude.{Some};
ghost use Rattle.ls_port.specs.Memory.{solid_bytes};

use crate::scripts::SETTLED;
use ls_port::{Sink, SinkRefusal, SolidSink};
use std::sync::atomic::{AtomicBool, Ordering};

/// A sink in memory that raises a flag when a reply begins with the settled display.
#[derive(Drop)]
pub struct WatchedSink<'a> {
    pub sink: SolidSink,
    pub settled: &'a AtomicBool,
}

impl<'a> Sink for WatchedSink<'a> {
    ghost written = { λ s. Some (solid_bytes s.sink) };

    ghost faults = { λ _. 0 };

    fn write(&mut self, bytes: &[u8]) -> Result<usize, SinkRefusal> {
        if bytes.starts_with(SETTLED) {
            self.settled.store(true, Ordering::SeqCst);
        }
        self.sink.write(bytes)
    }
}
