// What a worker's claim answers.
use crate::ticket::Ticket;
use machine::Machine;

/// `full`: the workers' room is full. `closed`: the book is closed. Where neither holds, no link is open.
#[derive(Drop)]
pub enum Claimed<M: Machine> {
    Ticket(Ticket<M>),
    Nothing { full: bool, closed: bool },
}
