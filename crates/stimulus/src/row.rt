// The row of a cycle: the names that are set, with their values.
ghost use Rattle.std.specs.Prelude.{◌≡◌, ◌↔◌, [], true, length, IfOk, OnErr, OnOk};
ghost use Rattle.stimulus.specs.Rows.{value_in, with_value, are_same};

use crate::setting::Setting;
use crate::settings::{are_equal, place_of};
use ls_text::{NameId, NoMemory};
use std::alloc::Global;
use std::marker::Model;

/// Values by names, each name once; a name that isn't set reads 0. Contracts see it as the list of the names' numbers with
/// their values, in ascending order.
#[derive(Drop)]
pub struct Row {
    settings: Vec<Setting>,
}

impl Model for Row {
    ghost use Rattle.std.specs.Prelude.{ℕ, List};
    ghost use Rattle.stimulus.specs.Rows.{AreAscending};
    ghost use Rattle.stimulus.specs.Settings.{pairs_of};

    ghost Value = { List (ℕ × ℕ) };

    ghost view = { λ r. pairs_of r.settings.items };

    ghost invariant = { λ r. AreAscending (pairs_of r.settings.items) };
}

impl Row {
    /// The row that sets nothing. It takes no memory.
    pub fn new(alloc: Global) -> Row
        ensures { result ≡ [] }
    {
        Row {
            settings: Vec::new(alloc),
        }
    }

    /// How many names are set.
    pub fn count(&self) -> usize
        ensures { result ≡ length self.now }
    {
        self.settings.len()
    }

    /// The value of a name, 0 where it isn't set. It is found by halving, and takes no memory.
    pub fn get(&self, name: NameId) -> u128
        ensures { result ≡ value_in self.now name.0 }
    {
        match place_of(&self.settings, name) {
            Ok(place) => self.settings[place].value,
            Err(_) => 0,
        }
    }

    /// Sets a name to a value, in place of the one that it had. Where memory runs out the row is as it was.
    pub fn put(&mut self, name: NameId, value: u128) -> Result<(), NoMemory>
        ensures ok { OnOk result (self.new ≡ with_value self.old name.0 value) }
        ensures err { OnErr result (self.new ≡ self.old) }
    {
        match place_of(&self.settings, name) {
            Ok(place) => {
                self.settings[place] = Setting { name, value };
                Ok(())
            }
            Err(place) => Ok(self.settings.insert(place, Setting { name, value })?),
        }
    }

    /// The same row, as a copy of its own.
    pub fn copy(&self, alloc: Global) -> Result<Row, NoMemory>
        ensures { IfOk result (λ r. r ≡ self.now) }
    {
        let mut settings = Vec::new(alloc);
        settings.extend_from_slice(&self.settings)?;
        Ok(Row { settings })
    }

    /// A copy in which a name has this value.
    pub fn with(&self, alloc: Global, name: NameId, value: u128) -> Result<Row, NoMemory>
        ensures { IfOk result (λ r. r ≡ with_value self.now name.0 value) }
    {
        let mut row = self.copy(alloc)?;
        row.put(name, value)?;
        Ok(row)
    }

    /// Whether the same names are set to the same values. A name that is set to 0 is set.
    pub fn same(&self, other: &Row) -> bool
        ensures value { result ≡ are_same self.now other.now }
        ensures equal { (result ≡ true) ↔ (self.now ≡ other.now) }
    {
        are_equal(&self.settings, &other.settings)
    }
}
