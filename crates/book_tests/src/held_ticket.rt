// A ticket that is out.
use book_history::who::Who;
use checkpoint_book::ticket::Ticket;
use machine::tally::TallyMachine;

/// A ticket, and who claimed it.
#[derive(Drop)]
pub struct HeldTicket {
    pub ticket: Ticket<TallyMachine>,
    pub by: Who,
}
