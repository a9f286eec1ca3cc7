// The book of a first version.
ghost use Rattle.std.specs.Prelude.{◌≡◌, [], IfOk};
ghost use Rattle.checkpoint_book.specs.Idle.{left_of};

use crate::left::Left;
use crate::opened::Opened;
use book_history::version::Version;
use ls_text::NoMemory;
use machine::Machine;
use std::alloc::Global;
use std::sync::Arc;

/// One mark, the machine's reset at cycle 0, and no link.
pub fn begun<M: Machine>(
    alloc: Global,
    version: Arc<Version<M>, Global>,
) -> Result<Opened<M, M::State>, NoMemory>
    ensures version { IfOk result (λ o. o.version.value ≡ version.value) }
    ensures first { IfOk result (λ o. o.first ≡ M.kit.start version.value.machine.value) }
    ensures segs { IfOk result (λ o. o.segs.items ≡ []) }
    ensures left { IfOk result (λ o. o.left ≡ left_of o.segs.items) }
{
    let first = (*version.machine).reset(alloc)?;
    Ok(Opened {
        version,
        first,
        segs: Vec::new(alloc),
        left: Left::AllJoined,
    })
}
