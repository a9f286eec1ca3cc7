// Settling the design that runs.
ghost use Rattle.std.specs.Prelude.{◌≡◌, ◌≤◌};
ghost use Rattle.checkpoint_book.specs.Answers.{shown_to};
ghost use Rattle.live_session.specs.Charging.{Charges};
ghost use Rattle.live_session.specs.SettleAnswers.{settled_up_to};

use crate::limits::Limits;
use crate::running::Running;
use crate::settle_answer::SettleAnswer;
use checkpoint_book::shown::Shown;

// What a settle answers, by its show.
pub fn settle_answer(shown: Shown) -> SettleAnswer
    ensures { settled_up_to result ≡ shown_to shown }
{
    match shown {
        Shown::Settled => SettleAnswer::Settled,
        Shown::Estimate { settled_to } => SettleAnswer::Unsettled { settled_to },
    }
}

impl Running {
    /// Charges the session's room for a settle over so many links: 1, and 2 for each pass that may be made, as many as are said, or one for each link.
    /// The passes; or None where the room is too small, and then nothing is charged.
    pub fn charge_settle(&mut self, limits: Limits, links: u32, passes: Option<u32>) -> Option<u32>
        requires within { self.old.charge ≤ limits.rooms.session }
        ensures { Charges limits links passes self.old self.new result }
    {
        let most = passes.unwrap_or(links);
        let charge = 2 * u64::from(most.min(links)) + 1;
        if charge > u64::from(limits.rooms.session - self.charge) {
            return None;
        }
        self.charge += charge as u32;
        Some(most)
    }
}
