// What a session is at: its version, cycle, marks and units.
ghost use Rattle.std.specs.Prelude.{◌≡◌, ◌==◌, ℕ, List, Some, IfOk, map, not, false};
ghost use Rattle.std.specs.List.{prefix_len};
ghost use Rattle.ls_text.specs.Texts.{HasEachOnce};
ghost use Rattle.command_read.specs.Asking.{AsksStatus};
ghost use Rattle.live_session.specs.Beside.{Stands};
ghost use Rattle.live_session.specs.Kept.{IsKept};
ghost use Rattle.live_session.specs.Statuses.{key_line, module_in};
ghost use Rattle.live_session.specs.Turns.{AnswersIn};
ghost use Rattle.live_session.specs.declared.limits.Limits.{Limits};

use crate::reply::Reply;
use crate::running::Running;
use checkpoint_book::book::Book;
use cycle_eval::Design;
use ls_text::{NoMemory, TextBytes, behind, front};
use module_registry::Key;
use std::alloc::Global;
use wave_report::{ReplyKind, UnitLine, UnitLines, reply_line};

/// How many bytes stand before the name of the module in a key's text: `module` and a space.
const NAME_AT: usize = 7;

// How many bytes stand before the first space.
fn len_before_space(text: &[u8]) -> usize
    ensures { result ≡ prefix_len (λ b. not (b == 32)) text.now }
{
    text.iter().take_while(|b| **b != b' ').count()
}

// The name of the module in a key's text.
fn module_of(alloc: Global, key: &[u8]) -> Result<Vec<u8>, NoMemory>
    ensures { IfOk result (λ name. name.items ≡ module_in key.now) }
{
    let rest = behind(key, NAME_AT);
    let name = front(rest, len_before_space(rest));
    Ok(Vec::from_slice(alloc, name)?)
}

// A line for each of these keys.
fn unit_lines(alloc: Global, keys: &[Key]) -> Result<Vec<UnitLine>, NoMemory>
    ensures { IfOk result (λ lines. lines.items ≡ map key_line keys.now) }
{
    let mut lines = Vec::with_capacity(alloc, keys.len())?;
    for key in keys {
        lines.push(UnitLine {
            module: TextBytes::new(module_of(alloc, key.text())?),
            digest: key.digest(),
        })?;
    }
    Ok(lines)
}

impl Running {
    /// Tells the version, the cycle, how many marks there are, and the units of the design.
    pub fn status(&self, alloc: Global, book: &Book<Design>) -> Result<Reply, NoMemory>
        ensures answers { IfOk result (λ r. (names : List (List ℕ)) (limits : Limits) (line : ℕ) → HasEachOnce names → IsKept names limits self.now
            → Stands limits (Some self.now) book.now → AnswersIn names limits (AsksStatus line) self.now self.now book.now book.now r) }
        ensures goes_on { IfOk result (λ r. r.quit ≡ false) }
    {
        let lines = unit_lines(alloc, self.keys.as_slice())?;
        let units = UnitLines::new(lines);
        let kind = ReplyKind::Status {
            version: self.version.number,
            cycle: self.record_.len(),
            marks: book.marks(),
            units,
        };
        let text = reply_line(alloc, &kind)?;
        Ok(Reply::accepted(text))
    }
}
