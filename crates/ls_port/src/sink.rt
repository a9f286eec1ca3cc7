// Where bytes go.
ghost use Rattle.std.specs.Prelude.{◌<◌, ℕ, List, length, IfOk};
ghost use Rattle.std.specs.Io.{WritesAtMost};
ghost use Rattle.std.specs.Io.KnownBytes.{WriteAppends};
ghost use Rattle.std.specs.declared.option.Option.{Option};
ghost use Rattle.ls_port.specs.Causes.{HasSinkCause};

use crate::SinkRefusal;

/// Where bytes go.
pub trait Sink {
    /// The bytes that were written, where the sink tells them.
    ghost written: { Self → Option (List ℕ) };

    /// How often it has failed. The count never falls, and stands still at its type's end.
    ghost faults: { Self → ℕ };

    /// Writes the front of the bytes: so many as it answers, at least one where there is one.
    ///
    /// At `Failed` the count of faults rises by one; every other answer leaves it. After either refusal nothing was written.
    fn write(&mut self, bytes: &[u8]) -> Result<usize, SinkRefusal>
        ensures bound { WritesAtMost result bytes.now }
        ensures some { IfOk result (λ n. 0 < length bytes.now → 0 < n) }
        ensures appended { WriteAppends (written self.old) (written self.new) result bytes.now }
        ensures cause { HasSinkCause (faults self.old) (faults self.new) result };
}
