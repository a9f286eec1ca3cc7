// `always` blocks (IEEE Std 1364-2005, 9.2, 9.9).
ghost use Rattle.std.specs.Prelude.{◌≡◌, ◌++◌, ◌∷◌, [], map, OnOk, IfOk, IfErr};
ghost use Rattle.typed_ir.specs.Items.{item_of};
ghost use Rattle.verilog_ast.specs.Views.{statement_of};
ghost use Rattle.width_rules.specs.declared.writer.Writer.TheVariants as writer;
ghost use Rattle.width_rules.specs.Entries.{scope_of};
ghost use Rattle.width_rules.specs.Faults.{IsFirst};
ghost use Rattle.width_rules.specs.Mentions.{statement_reads, statement_targets};
ghost use Rattle.statement_rules.specs.Statements.{statement_faults};
ghost use Rattle.statement_rules.specs.SizedItems.{combinational_item, clocked_item};

use crate::blocks::size_stmt;
use ls_text::{NoMemory, Place, Refusal};
use std::alloc::Global;
use typed_ir::{ItemBody, ItemPlaces, Node, ShownTarget, TypedItem, UnitNode};
use verilog_ast::Stmt;
use width_rules::{BlockMentions, Scope, Writer, block_mentions, first_number, statement_form};

// Where a block stands, and what it mentions.
fn places_of(alloc: Global, scope: &Scope, at: Place, body: &Stmt) -> Result<ItemPlaces, NoMemory>
    ensures at { IfOk result (λ x. x.at ≡ at) }
    ensures targets { IfOk result (λ x. x.targets.items ≡ statement_targets 0 (statement_of body.now)) }
    ensures reads { IfOk result (λ x. x.reads.items ≡ statement_reads (scope_of scope.now) 0 (statement_of body.now)) }
{
    let BlockMentions { targets, reads } = block_mentions(alloc, scope, body)?;
    Ok(ItemPlaces { at, targets, reads })
}

// The item of a combinational block.
fn size_combinational(
    alloc: Global,
    scope: &Scope,
    at: Place,
    body: &Stmt,
) -> Result<TypedItem, Refusal>
    ensures faultless { IfOk result (λ _. statement_faults (scope_of scope.now) writer.Combinational (statement_of body.now) ≡ []) }
    ensures item { IfOk result (λ x. item_of x ≡ combinational_item (scope_of scope.now) at (statement_of body.now)) }
    ensures fault { IfErr result (IsFirst (statement_faults (scope_of scope.now) writer.Combinational (statement_of body.now))) }
{
    let places = places_of(alloc, scope, at, body)?;
    let shown = ShownTarget {
        number: first_number(&places.targets),
        form: statement_form(scope, body),
    };
    let body = size_stmt(alloc, scope, Writer::Combinational, body)?;
    Ok(TypedItem {
        body: ItemBody::Node(UnitNode::Own(Node::Block { shown, body })),
        places,
    })
}

// The item of a clocked block.
fn size_clocked(alloc: Global, scope: &Scope, at: Place, body: &Stmt) -> Result<TypedItem, Refusal>
    ensures faultless { IfOk result (λ _. statement_faults (scope_of scope.now) writer.Clocked (statement_of body.now) ≡ []) }
    ensures item { IfOk result (λ x. item_of x ≡ clocked_item (scope_of scope.now) at (statement_of body.now)) }
    ensures fault { IfErr result (IsFirst (statement_faults (scope_of scope.now) writer.Clocked (statement_of body.now))) }
{
    let places = places_of(alloc, scope, at, body)?;
    let body = size_stmt(alloc, scope, Writer::Clocked, body)?;
    Ok(TypedItem {
        body: ItemBody::Clocked(body),
        places,
    })
}

/// Adds the item of a combinational block: its first fault as of `size_stmt`, or want of memory.
#[tactic(auto, using(width_rules::proofs::Firsts::earlier, width_rules::proofs::Firsts::later, width_rules::proofs::Firsts::neither, crate::proofs::Placed::added))]
pub fn add_combinational(
    alloc: Global,
    scope: &Scope,
    at: Place,
    body: &Stmt,
    items: &mut Vec<TypedItem>,
) -> Result<(), Refusal>
    ensures faultless { OnOk result (statement_faults (scope_of scope.now) writer.Combinational (statement_of body.now) ≡ []) }
    ensures items { OnOk result (map item_of items.new.items ≡ map item_of items.old.items ++ combinational_item (scope_of scope.now) at (statement_of body.now) ∷ []) }
    ensures fault { IfErr result (IsFirst (statement_faults (scope_of scope.now) writer.Combinational (statement_of body.now))) }
{
    let item = size_combinational(alloc, scope, at, body)?;
    items.push(item)?;
    Ok(())
}

/// The same of a clocked block.
#[tactic(auto, using(width_rules::proofs::Firsts::earlier, width_rules::proofs::Firsts::later, width_rules::proofs::Firsts::neither, crate::proofs::Placed::added))]
pub fn add_clocked(
    alloc: Global,
    scope: &Scope,
    at: Place,
    body: &Stmt,
    items: &mut Vec<TypedItem>,
) -> Result<(), Refusal>
    ensures faultless { OnOk result (statement_faults (scope_of scope.now) writer.Clocked (statement_of body.now) ≡ []) }
    ensures items { OnOk result (map item_of items.new.items ≡ map item_of items.old.items ++ clocked_item (scope_of scope.now) at (statement_of body.now) ∷ []) }
    ensures fault { IfErr result (IsFirst (statement_faults (scope_of scope.now) writer.Clocked (statement_of body.now))) }
{
    let item = size_clocked(alloc, scope, at, body)?;
    items.push(item)?;
    Ok(())
}
