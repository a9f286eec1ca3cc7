// Values for inputs.
ghost use Rattle.std.specs.Prelude.{◌≡◌, ◌<◌, ◌∷◌, ◌^◌, ℕ, [], List, length, map, nat_lt, false, IfOk, OnErr};
ghost use Rattle.std.specs.List.{All};
ghost use Rattle.std.specs.Option.{option_map};
ghost use Rattle.ls_text.specs.Texts.{HasEachOnce, text_at};
ghost use Rattle.command_read.specs.Asking.{Sets};
ghost use Rattle.command_read.specs.Spoken.{setting};
ghost use Rattle.cycle_eval.specs.Designs.{design_flat};
ghost use Rattle.cycle_eval.specs.Inputs.{input_width_of};
ghost use Rattle.live_session.specs.Beside.{Stands};
ghost use Rattle.live_session.specs.Kept.{IsKept};
ghost use Rattle.live_session.specs.Logs.{Log};
ghost use Rattle.live_session.specs.Turns.{AnswersIn};
ghost use Rattle.live_session.specs.Verdicts.{port_fault};
ghost use Rattle.live_session.specs.Worlds.{refused_at};

use crate::limits::Limits;
use crate::refusing::refused_name;
use crate::reply::Reply;
use crate::running::Running;
use command_read::PortValue;
use ls_text::{NameId, Names, NoMemory};
use std::alloc::Global;
use std::sync::Arc;
use wave_report::{ReplyKind, reply_line};

/// A table has no text twice: it says so where it is read.
pub fn has_each_once(names: &Names)
    ensures { HasEachOnce names.now }
{
    let _text = names.text(NameId(0));
}

// Whether a value has no bit beyond a width.
fn fits(width: u8, value: u128) -> bool
    ensures { result ≡ nat_lt value (2 ^ width) }
{
    width >= 128 || value >> width == 0
}

impl Running {
    // The fault of a value for a port: 63 where the top has no such input, 61 where the value doesn't fit it.
    fn port_fault(&self, value: PortValue) -> Option<u8>
        ensures { (line : ℕ) (port : List ℕ) → option_map (λ code. refused_at code line (port ∷ [])) result
            ≡ port_fault line port value.value (input_width_of (design_flat self.now.version.value.machine.value) value.port.0) }
    {
        match self.version.machine.input_width(value.port) {
            None => Some(63),
            Some(width) if !fits(width, value.value) => Some(61),
            Some(_) => None,
        }
    }

    /// Sets inputs in the current row, one after the other, or none of them where one is refused.
    pub fn set(
        &mut self,
        alloc: Global,
        names: &Names,
        limits: Limits,
        line: u64,
        values: &[PortValue],
    ) -> Result<Reply, NoMemory>
        requires kept { IsKept names.now limits self.old }
        requires within { All (λ v. v.port.0 < length names.now) values.now }
        ensures answers { IfOk result (λ r. (j : Log) → Stands limits (Some self.old) j
            → AnswersIn names.now limits (Sets line (map (setting names.now) values.now)) self.old self.new j j r) }
        ensures goes_on { IfOk result (λ r. r.quit ≡ false) }
        ensures kept { IsKept names.now limits self.new }
        ensures stands { (j : Log) → Stands limits (Some self.old) j → Stands limits (Some self.new) j }
        ensures before { OnErr result (self.new ≡ self.old) }
    {
        has_each_once(names);
        let mut row = self.row.copy(alloc)?;
        for value in values {
            if let Some(code) = self.port_fault(*value) {
                return refused_name(alloc, names, code, line, value.port);
            }
            row.put(value.port, value.value)?;
        }
        let text = reply_line(alloc, &ReplyKind::Set)?;
        self.row = Arc::new(alloc, row)?;
        Ok(Reply::accepted(text))
    }
}
