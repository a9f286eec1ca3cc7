// The edge: any writer of std. It tells the contents that the writer tells: those of the host tell none.
ghost use Rattle.std.specs.Prelude.{◌≡◌, ◌<◌, length, IfOk, IsErrOf};
ghost use Rattle.std.specs.Io.{WritesAtMost};
ghost use Rattle.std.specs.Io.KnownBytes.{WriteAppends};
ghost use Rattle.ls_port.specs.Causes.{HasSinkCause};

use crate::{Sink, SinkRefusal};
use std::io::Write;

/// A writer of std as a sink, with the bytes that the writer holds. Each of its errors counts as a fault, and so does a write
/// that takes nothing.
#[derive(Drop)]
pub struct StdSink<W: Write + Drop> {
    inner: W,
    faults: u64,
}

impl<W: Write + Drop> StdSink<W> {
    /// The sink of this writer, which hasn't failed yet.
    pub fn new(inner: W) -> Self
        ensures faults { result.faults ≡ 0 }
        ensures inner { result.inner ≡ inner }
    {
        StdSink { inner, faults: 0 }
    }
}

impl<W: Write + Drop> Sink for StdSink<W> {
    ghost use Rattle.ls_port.specs.declared.sink_refusal.SinkRefusal.TheVariants.{NoMemory as Full};

    ghost written = { λ s. W.contents s.inner };

    ghost faults = { λ s. s.faults };

    /// Takes what the writer takes. It has no other refusal than `Failed`.
    fn write(&mut self, bytes: &[u8]) -> Result<usize, SinkRefusal>
        ensures bound { WritesAtMost result bytes.now }
        ensures some { IfOk result (λ n. 0 < length bytes.now → 0 < n) }
        ensures appended { WriteAppends (W.contents self.old.inner) (W.contents self.new.inner) result bytes.now }
        ensures cause { HasSinkCause self.old.faults self.new.faults result }
        ensures full { IsErrOf result Full → ⊥ }
    {
        match self.inner.write(bytes) {
            Ok(count) if count > 0 || bytes.is_empty() => Ok(count),
            _ => {
                self.faults = self.faults.saturating_add(1);
                Err(SinkRefusal::Failed)
            }
        }
    }
}
