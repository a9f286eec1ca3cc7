// A gate at which one ticket lets others go.
use ls_port::{Gate, GateStep};
use test_gates::HoldingGate;

/// As the gate that it asks; but where one ticket comes to this step, that gate lets its tickets go, and the ticket waits until another one comes. No other
/// step of that ticket is told to that gate.
#[derive(Drop)]
pub struct PassingGate<'a> {
    pub holding: &'a HoldingGate,
    pub ticket: u64,
    pub step: GateStep,
}

impl<'a> Gate for PassingGate<'a> {
    fn before(&self, ticket: u64, step: GateStep) {
        if ticket != self.ticket {
            self.holding.before(ticket, step);
        } else if step == self.step {
            self.holding.let_go();
        }
    }
}
