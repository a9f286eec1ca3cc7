// A source that goes on once workers are held at a gate.
ghost use Rattle.std.specs.Prelude.{None};

use ls_port::{Failed, SolidSource, Source};
use test_gates::HoldingGate;

/// A script, and then what another source gives, once all the gate's tickets are held. Where that one ends or fails, the gate lets go first.
#[derive(Drop)]
pub struct HeldSource<'a, S: Source> {
    pub script: SolidSource,
    pub gate: &'a HoldingGate,
    pub end: S,
}

impl<'a, S: Source> Source for HeldSource<'a, S> {
    ghost left = { λ _. None };

    ghost faults = { λ s. S.faults s.end };

    fn read(&mut self, buf: &mut [u8]) -> Result<usize, Failed> {
        match self.script.read(buf) {
            Ok(count) if count > 0 => Ok(count),
            _ => {
                self.gate.await_all();
                let answer = self.end.read(buf);
                match &answer {
                    Ok(count) if *count > 0 => {}
                    _ => self.gate.let_go(),
                }
                answer
            }
        }
    }
}
