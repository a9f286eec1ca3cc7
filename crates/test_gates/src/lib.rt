// Gates by which tests order, or see, what threads do.
//
// `meeting_gate` holds a ticket until another one comes (`meeting`), `holding_gate` holds the first tickets until it is told to let them go; both
// give up after a limit (`patience`), and tell so. `noting_gate` holds nobody, and notes who comes.
#![tactic(auto)]

mod holding_gate;
mod meeting;
mod meeting_gate;
mod noting_gate;
mod patience;

pub use holding_gate::HoldingGate;
pub use meeting::Meeting;
pub use meeting_gate::MeetingGate;
pub use noting_gate::NotingGate;
pub use patience::rest;
