// A source that asks until a display is settled.
ghost use Rattle.std.specs.Prelude.{◌≡◌, ◌≤◌, None, length};

use ls_port::{Failed, SolidSource, Source};
use std::sync::atomic::{AtomicBool, Ordering};
use test_gates::rest;

/// A script, and then one `show` at a time, each after a million turns in which others run, until the flag is raised; so often at most.
#[derive(Drop)]
pub struct AskingSource<'a> {
    pub script: SolidSource,
    pub settled: &'a AtomicBool,
    pub asks: u32,
}

// Writes a line into the front of the buffer, or as much of it as there is room for: how much.
pub fn give(buf: &mut [u8], line: &[u8]) -> usize
    ensures { result ≤ length buf.new }
{
    let count = line.len().min(buf.len());
    buf[..count].copy_from_slice(&line[..count]);
    count
}

impl<'a> Source for AskingSource<'a> {
    ghost left = { λ _. None };

    ghost faults = { λ _. 0 };

    fn read(&mut self, buf: &mut [u8]) -> Result<usize, Failed> {
        match self.script.read(buf) {
            Ok(count) if count > 0 => Ok(count),
            _ => {
                if self.asks == 0 || self.settled.load(Ordering::SeqCst) {
                    return Ok(0);
                }
                self.asks -= 1;
                rest(1000000);
                Ok(give(buf, b"show\n"))
            }
        }
    }
}
