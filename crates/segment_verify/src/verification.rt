// What a verification answers.
use checkpoint_book::ticket::Ticket;
use checkpoint_book::verified::Verified;
use machine::Machine;

/// The ticket with its result, or the ticket back where memory ran out.
#[derive(Drop)]
pub enum Verification<M: Machine> {
    Done(Verified<M>),
    NoMemory(Ticket<M>),
}
