// The signals of a list, found by their hashes.
ghost use Rattle.std.specs.Prelude.{◌≡◌, ℕ};
ghost use Rattle.indexmap.specs.IndexSet.{contains};
ghost use Rattle.std.specs.Prelude.{nat_eq};
ghost use Rattle.typed_ir.specs.Orders.{is_member};

use indexmap::IndexSet;
use typed_ir::SignalId;

/// A list of signals with a set of their numbers.
#[derive(Drop)]
pub struct Members<'a> {
    pub listed: &'a [SignalId],
    pub(crate) set: IndexSet<u32>,
    ghost has: { (q : ℕ) → contains nat_eq set q ≡ is_member q listed.now },
}
