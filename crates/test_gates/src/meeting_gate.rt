// A gate at which two tickets meet.
use crate::meeting::Meeting;
use ls_port::{Gate, GateStep};

/// Holds the first ticket that reaches a step until another one reaches it. Tickets are numbered from 1.
#[derive(Drop)]
pub struct MeetingGate {
    pub step: GateStep,
    pub meeting: Meeting,
}

impl Gate for MeetingGate {
    fn before(&self, ticket: u64, step: GateStep) {
        if step == self.step {
            self.meeting.reach(ticket);
        }
    }
}
