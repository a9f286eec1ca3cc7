// A sink in memory. It tells its contents, and fails at the calls that it is told.
ghost use Rattle.std.specs.Prelude.{◌≡◌, ◌+◌, ◌-◌, ◌^◌, ◌<◌, min, Some, [], length, IfOk, IsErrOf};
ghost use Rattle.std.specs.Io.{WritesAtMost};
ghost use Rattle.std.specs.Io.KnownBytes.{WriteAppends};
ghost use Rattle.ls_port.specs.Causes.{HasSinkCause};

use crate::{Sink, SinkRefusal};
use std::alloc::Global;

/// A sink in memory.
#[derive(Drop)]
pub struct MemSink {
    bytes: Vec<u8>,
    fails: Vec<u64>,
    calls: u64,
    faults: u64,
}

impl MemSink {
    ghost use Rattle.ls_port.specs.Memory.{sink_bytes};

    /// A sink to which nothing was written. The writes whose numbers, from 0, are in `fails` fail.
    pub fn new(alloc: Global, fails: Vec<u64>) -> Self
        ensures bytes { sink_bytes result ≡ [] }
        ensures fails { result.fails ≡ fails }
        ensures calls { result.calls ≡ 0 }
        ensures faults { result.faults ≡ 0 }
    {
        MemSink {
            bytes: Vec::new(alloc),
            fails,
            calls: 0,
            faults: 0,
        }
    }

    /// The bytes that were written.
    pub fn bytes(&self) -> &[u8]
        ensures { result.now ≡ sink_bytes self.now }
    {
        &self.bytes
    }
}

impl Sink for MemSink {
    ghost use Rattle.ls_port.specs.declared.sink_refusal.SinkRefusal.TheVariants.{Failed as SinkFailed, NoMemory as Full};
    ghost use Rattle.std.specs.Prelude.{nat_eq, OnOk, true, false};
    ghost use Rattle.std.specs.List.{list_any};
    ghost use Rattle.ls_port.specs.Memory.{sink_bytes};

    ghost written = { λ s. Some (sink_bytes s) };

    ghost faults = { λ s. s.faults };

    /// Takes all the bytes.
    fn write(&mut self, bytes: &[u8]) -> Result<usize, SinkRefusal>
        ensures bound { WritesAtMost result bytes.now }
        ensures some { IfOk result (λ n. 0 < length bytes.now → 0 < n) }
        ensures appended { WriteAppends (Some (sink_bytes self.old)) (Some (sink_bytes self.new)) result bytes.now }
        ensures cause { HasSinkCause self.old.faults self.new.faults result }
        ensures fails { IsErrOf result SinkFailed → list_any (nat_eq self.old.calls) self.old.fails.items ≡ true }
        ensures works { OnOk result (list_any (nat_eq self.old.calls) self.old.fails.items ≡ false) }
        ensures full { IsErrOf result Full → list_any (nat_eq self.old.calls) self.old.fails.items ≡ false }
        ensures all { IfOk result (λ n. n ≡ length bytes.now) }
        ensures calls { self.new.calls ≡ min (self.old.calls + 1) (2 ^ 64 - 1) }
        ensures told { self.new.fails ≡ self.old.fails }
    {
        let call = self.calls;
        self.calls = self.calls.saturating_add(1);
        if self.fails.contains(&call) {
            self.faults = self.faults.saturating_add(1);
            return Err(SinkRefusal::Failed);
        }
        match self.bytes.extend_from_slice(bytes) {
            Ok(()) => Ok(bytes.len()),
            Err(_) => Err(SinkRefusal::NoMemory),
        }
    }
}
