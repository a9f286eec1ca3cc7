// A source in memory that never fails.
ghost use Rattle.std.specs.Prelude.{◌≡◌, ◌≤◌, min, Some, vec_len, length, IfOk};
ghost use Rattle.std.specs.Io.{ReadsAtMost};
ghost use Rattle.std.specs.Io.KnownBytes.{ReadConsumes};
ghost use Rattle.ls_port.specs.Causes.{HasCause};

use crate::{Failed, Source};

/// Bytes in memory as a source that never fails.
#[derive(Drop)]
pub struct SolidSource {
    bytes: Vec<u8>,
    at: usize,
    ghost within: { at ≤ vec_len bytes },
}

impl SolidSource {
    ghost use Rattle.ls_port.specs.Memory.{solid_left};

    /// A source of these bytes.
    pub fn new(bytes: Vec<u8>) -> Self
        ensures { solid_left result ≡ bytes.items }
    {
        SolidSource { bytes, at: 0 }
    }
}

impl Source for SolidSource {
    ghost use Rattle.ls_port.specs.Memory.{solid_left};

    ghost left = { λ s. Some (solid_left s) };

    ghost faults = { λ _. 0 };

    /// Gives as many bytes as the buffer takes, or all that are left where these are fewer.
    fn read(&mut self, buf: &mut [u8]) -> Result<usize, Failed>
        ensures bound { ReadsAtMost result buf.new }
        ensures bytes { ReadConsumes (Some (solid_left self.old)) (Some (solid_left self.new)) result buf.new }
        ensures cause { HasCause 0 0 result }
        ensures most { IfOk result (λ n. n ≡ min (length buf.new) (length (solid_left self.old))) }
    {
        let count = buf.len().min(self.bytes.len() - self.at);
        buf[..count].copy_from_slice(&self.bytes[self.at..self.at + count]);
        self.at += count;
        Ok(count)
    }
}
