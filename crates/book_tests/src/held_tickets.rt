// What a case keeps from step to step.
use crate::held_ticket::HeldTicket;

/// The tickets in the two places, and whether the book is closed.
#[derive(Drop)]
pub struct HeldTickets {
    pub first: Option<HeldTicket>,
    pub second: Option<HeldTicket>,
    pub closed: bool,
}
