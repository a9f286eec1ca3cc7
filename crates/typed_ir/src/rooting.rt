// Instances to a table, where each stands behind the one that it stands in.
ghost use Rattle.std.specs.Prelude.{◌≡◌, None, [], ◌∷◌, false, IfOk, IfSome, IfNone};
ghost use Rattle.typed_ir.specs.Paths.{stands, parents_of, parents_before};

use crate::instance_id::InstanceId;
use crate::instance_name::InstanceName;
use crate::instance_table::InstanceTable;
use ls_text::{NameId, NoMemory};
use std::alloc::Global;

// Whether the k-th instance may stand in this one: the first in none, and each other behind the one that it stands in.
fn stands(k: usize, parent: Option<InstanceId>) -> bool
    ensures { result ≡ stands k parent }
{
    match parent {
        None => k == 0,
        Some(p) => p.index() < k,
    }
}

fn parents_before(rows: &[InstanceName]) -> bool
    ensures { result ≡ parents_before 0 (parents_of rows.now) }
{
    for k in 0..rows.len() {
        if !stands(k, rows[k].parent) {
            return false;
        }
    }
    true
}

impl InstanceTable {
    /// The table of these instances; None just where one doesn't stand behind the one that it stands in, or another than the first
    /// stands in none. It takes no memory.
    pub fn new(rows: Vec<InstanceName>) -> Option<InstanceTable>
        ensures rows { IfSome result (λ t. t.rows ≡ rows) }
        ensures refused { IfNone result (parents_before 0 (parents_of rows.items) ≡ false) }
    {
        if parents_before(&rows) {
            Some(InstanceTable { rows })
        } else {
            None
        }
    }

    /// The table of one instance, the top of this name.
    pub fn of_top(alloc: Global, name: NameId) -> Result<InstanceTable, NoMemory>
        ensures { IfOk result (λ t. t.rows.items ≡ record { parent = None; name = name } ∷ []) }
    {
        let mut rows = Vec::new(alloc);
        rows.push(InstanceName { parent: None, name })?;
        Ok(InstanceTable { rows })
    }
}
