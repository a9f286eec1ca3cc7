// The units of a design, as a status shows them.
ghost use Rattle.std.specs.Prelude.{◌≡◌};

use crate::unit_line::UnitLine;
use std::marker::Model;

/// Units in the order in which a status lists them. Contracts see them as the list.
#[derive(Debug, Drop)]
pub struct UnitLines {
    lines: Vec<UnitLine>,
}

impl Model for UnitLines {
    ghost use Rattle.std.specs.Prelude.{List};
    ghost use Rattle.wave_report.specs.declared.unit_line.UnitLine.{UnitLine};

    ghost Value = { List UnitLine };

    ghost view = { λ u. u.lines.items };
}

impl UnitLines {
    /// These units, in their order. It takes no memory.
    pub fn new(lines: Vec<UnitLine>) -> Self
        ensures { result ≡ lines.items }
    {
        UnitLines { lines }
    }

    /// The units.
    pub fn lines(&self) -> &[UnitLine]
        ensures { result.now ≡ self.now }
    {
        &self.lines
    }

    /// Gives the units back. It takes no memory.
    pub fn into_lines(self) -> Vec<UnitLine>
        ensures { result.items ≡ self }
    {
        self.lines
    }
}
