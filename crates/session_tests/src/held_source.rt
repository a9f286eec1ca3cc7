// A source that goes on once a worker holds a ticket.
ghost use Rattle.std.specs.Prelude.{None};

use ls_port::{Failed, SolidSource, Source};
use test_gates::HoldingGate;

/// A script, and then another one once all the gate's tickets are held; the gate lets them go at its end.
#[derive(Drop)]
pub struct HeldSource<'a> {
    pub script: SolidSource,
    pub gate: &'a HoldingGate,
    pub then: SolidSource,
}

impl<'a> Source for HeldSource<'a> {
    ghost left = { λ _. None };

    ghost faults = { λ _. 0 };

    fn read(&mut self, buf: &mut [u8]) -> Result<usize, Failed> {
        match self.script.read(buf) {
            Ok(count) if count > 0 => Ok(count),
            _ => {
                self.gate.await_all();
                let answer = self.then.read(buf);
                match &answer {
                    Ok(count) if *count > 0 => {}
                    _ => self.gate.let_go(),
                }
                answer
            }
        }
    }
}
