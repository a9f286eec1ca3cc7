// A gate that holds tickets at their install.
use ls_port::{Gate, GateStep};
use test_gates::HoldingGate;

/// What the gate that it asks does before a verification, before an install: so its first tickets are held once they are verified.
#[derive(Drop)]
pub struct InstallGate<'a> {
    pub holding: &'a HoldingGate,
}

impl<'a> Gate for InstallGate<'a> {
    fn before(&self, ticket: u64, step: GateStep) {
        if step == GateStep::Install {
            self.holding.before(ticket, GateStep::Verify);
        }
    }
}
