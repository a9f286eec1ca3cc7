// The call for a block.
ghost use Rattle.std.specs.Prelude.{◌≡◌, IfOk};
ghost use Rattle.verilog_ast.specs.Views.{statement_of};
ghost use Rattle.width_rules.specs.Entries.{scope_of};
ghost use Rattle.width_rules.specs.Mentions.{statement_reads, statement_targets};

use crate::asked::Asked;
use crate::mention_lists::BlockMentions;
use crate::scope::Scope;
use crate::walking::walk;
use ls_text::NoMemory;
use std::alloc::Global;
use verilog_ast::Stmt;

/// What the targets and the reads of a block mention, each in the order of the sized block and numbered from 0 by the order of the text; or
/// want of memory, of which 2^32 names of one kind are a case.
pub fn block_mentions(alloc: Global, scope: &Scope, body: &Stmt) -> Result<BlockMentions, NoMemory>
    ensures targets { IfOk result (λ x. x.targets.items ≡ statement_targets 0 (statement_of body.now)) }
    ensures reads { IfOk result (λ x. x.reads.items ≡ statement_reads (scope_of scope.now) 0 (statement_of body.now)) }
{
    let mut targets = Vec::new(alloc);
    let _written = walk(alloc, Asked::Targets, scope, body, 0, &mut targets)?;
    let mut reads = Vec::new(alloc);
    let _read = walk(alloc, Asked::Reads, scope, body, 0, &mut reads)?;
    Ok(BlockMentions { targets, reads })
}
