// The names in reach.
ghost use Rattle.std.specs.Prelude.{◌≡◌, true};
ghost use Rattle.width_rules.specs.Found.{are_held};

use crate::covered::Covered;
use crate::entry::Entry;
use indexmap::IndexMap;
use ls_text::NameId;
use std::collections::VecDeque;

/// The names in reach, each with what it stands for: those of the innermost block hide those of the blocks around it. A name is found
/// by its hash, however many blocks are open. What declarations in the open blocks cover stands apart, the last one first, and comes
/// back where their block ends.
#[derive(Drop)]
pub struct Scope {
    pub(crate) names: IndexMap<NameId, Entry>,
    pub(crate) covered: VecDeque<Covered>,
    ghost held: { are_held names.entries covered.items ≡ true },
}
