// Displays of the design that runs.
ghost use Rattle.std.specs.Prelude.{◌≡◌, ℕ, List, length, Some, false, IfOk, OnErr};
ghost use Rattle.book_history.specs.Book.{all_joined};
ghost use Rattle.checkpoint_book.specs.Answers.{shown_to};
ghost use Rattle.checkpoint_book.specs.Views.{shown_in};
ghost use Rattle.command_read.specs.Asking.{Shows};
ghost use Rattle.module_registry.specs.Entries.{Entry};
ghost use Rattle.version_swap.specs.Behind.{design_of};
ghost use Rattle.wave_report.specs.Replies.{reply_text};
ghost use Rattle.live_session.specs.Beside.{RunsIn, Stands};
ghost use Rattle.live_session.specs.Kept.{AreNamed, HasPlans, IsKept};
ghost use Rattle.live_session.specs.Logs.{book_in, outline_of};
ghost use Rattle.live_session.specs.Sessions.{world_of};
ghost use Rattle.live_session.specs.Shown.{display_lines, last_values, show_line};
ghost use Rattle.live_session.specs.Spelled.{spelled};
ghost use Rattle.live_session.specs.Turns.{AnswersIn, StopsIn};

use crate::limits::Limits;
use crate::refusing::refused_line;
use crate::reply::Reply;
use crate::running::Running;
use crate::setting::has_each_once;
use book_history::laws::legal_histories;
use checkpoint_book::book::Book;
use checkpoint_book::shown::Shown;
use cycle_eval::Design;
use ls_text::{Names, NoMemory};
use std::alloc::Global;
use wave_report::{ReplyKind, reply_line, table};

impl Running {
    // What the line before a display's table says.
    fn shown_kind(&self, shown: Shown) -> ReplyKind
        ensures { (names : List (List ℕ)) (entries : List Entry) (grid : List ℕ)
            → reply_text result ≡ show_line (world_of names entries grid self.now) (shown_to shown) }
    {
        let cycle = self.record_.len();
        let version = self.version.number;
        match shown {
            Shown::Settled => ReplyKind::ShowSettled { cycle, version },
            Shown::Estimate { settled_to } => ReplyKind::ShowEstimate {
                cycle,
                version,
                settled_to,
            },
        }
    }

    // The lines of a display: whether it is settled, and behind that the registers at the book's last mark whose paths begin with the prefix. Where
    // it is settled these are the true ones.
    fn display(
        &self,
        alloc: Global,
        names: &Names,
        book: &Book<Design>,
        shown: Shown,
        prefix: &[u8],
    ) -> Result<Vec<u8>, NoMemory>
        requires named { AreNamed (length names.now) self.now }
        requires plans { ∥ HasPlans names.now self.now ∥₁ }
        requires runs { RunsIn self.now (outline_of book.now) }
        requires shown { shown_to shown ≡ shown_in (book_in book.now) }
        ensures { IfOk result (λ text. (entries : List Entry) (grid : List ℕ) → text.items
            ≡ display_lines (world_of names.now entries grid self.now) prefix.now
            (spelled names.now (design_of self.now.version.value.machine.value self.now.keys)) (shown_to shown) (last_values (book_in book.now))) }
    {
        has_each_once(names);
        book.legal();
        legal_histories::<Design>();
        let kind = self.shown_kind(shown);
        let mut text = reply_line(alloc, &kind)?;
        let state = book.current();
        let registers = table(alloc, names, &self.version.machine, state, prefix)?;
        text.extend_from_slice(&registers)?;
        Ok(text)
    }

    /// Shows the registers whose paths begin with the prefix; 68 where the session's room is full. The table is settled where all of the book's segments
    /// are, and else an estimate.
    pub fn show(
        &mut self,
        alloc: Global,
        names: &Names,
        limits: Limits,
        book: &mut Book<Design>,
        line: u64,
        prefix: &[u8],
    ) -> Result<Reply, NoMemory>
        requires kept { IsKept names.now limits self.old }
        requires stands { Stands limits (Some self.old) book.old }
        ensures answers { IfOk result (AnswersIn names.now limits (Shows line prefix.now) self.old self.new book.old book.new) }
        ensures goes_on { IfOk result (λ r. r.quit ≡ false) }
        ensures stops { OnErr result (StopsIn names.now limits (Shows line prefix.now) self.old self.new book.old book.new) }
        ensures kept { IsKept names.now limits self.new }
        ensures stands { Stands limits (Some self.new) book.new }
    {
        has_each_once(names);
        if self.charge >= limits.rooms.session {
            return refused_line(alloc, names, 68, line);
        }
        let shown = book.show();
        book.legal();
        self.charge += 1;
        let text = self.display(alloc, names, book, shown, prefix)?;
        Ok(Reply::accepted(text))
    }
}
