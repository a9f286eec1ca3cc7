// A list of names.
ghost use Rattle.std.specs.Prelude.{◌≡◌};

use crate::NameId;
use std::marker::Model;

/// A list of names. Contracts see it as the list of their ids.
#[derive(Debug, Drop)]
pub struct NameList {
    ids: Vec<NameId>,
}

impl Model for NameList {
    ghost use Rattle.std.specs.Prelude.{List};
    ghost use Rattle.ls_text.specs.declared.name_id.NameId.{NameId};

    ghost Value = { List NameId };

    ghost view = { λ l. l.ids.items };
}

impl NameList {
    /// The list of these names. It takes no memory.
    pub fn new(ids: Vec<NameId>) -> Self
        ensures { result ≡ ids.items }
    {
        NameList { ids }
    }

    /// The ids of the names.
    pub fn ids(&self) -> &[NameId]
        ensures { result.now ≡ self.now }
    {
        &self.ids
    }

    /// Gives the ids back. It takes no memory.
    pub fn into_ids(self) -> Vec<NameId>
        ensures { result.items ≡ self }
    {
        self.ids
    }
}
