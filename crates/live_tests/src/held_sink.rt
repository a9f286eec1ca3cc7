// A sink at which a gate lets go.
use ls_port::{Sink, SinkRefusal};
use test_gates::HoldingGate;

/// Another sink, to which a reply that begins so is handed once the gate's tickets were held and the gate has let them go.
#[derive(Drop)]
pub struct HeldSink<'a, K: Sink> {
    pub sink: K,
    pub gate: &'a HoldingGate,
    pub at: &'a [u8],
}

impl<'a, K: Sink> Sink for HeldSink<'a, K> {
    ghost written = { λ s. K.written s.sink };

    ghost faults = { λ s. K.faults s.sink };

    fn write(&mut self, bytes: &[u8]) -> Result<usize, SinkRefusal> {
        if bytes.starts_with(self.at) {
            self.gate.let_go();
        }
        self.sink.write(bytes)
    }
}
