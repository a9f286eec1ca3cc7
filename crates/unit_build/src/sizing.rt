// Connections, sized: each is an item of its module.
ghost use Rattle.std.specs.Prelude.{◌≡◌, ◌≤◌, ◌∷◌, [], max, IfOk, IfErr};
ghost use Rattle.typed_ir.specs.declared.target_form.TargetForm.TheVariants as form;
ghost use Rattle.typed_ir.specs.Forms.{sized};
ghost use Rattle.typed_ir.specs.Sized.{Name};
ghost use Rattle.typed_ir.specs.Items.{item_of};
ghost use Rattle.typed_ir.specs.Trees.{From};
ghost use Rattle.typed_ir.specs.Units.{unit_node_of};
ghost use Rattle.verilog_ast.specs.Views.{expression_of};
ghost use Rattle.width_rules.specs.declared.due.Due.TheVariants.{AnyValue};
ghost use Rattle.width_rules.specs.Entries.{scope_of};
ghost use Rattle.width_rules.specs.Faults.{IsFirst, faults};
ghost use Rattle.width_rules.specs.Sizes.{extended};
ghost use Rattle.statement_rules.specs.Statements.{assigned};
ghost use Rattle.unit_build.specs.Connections.{connection_faults};
ghost use Rattle.unit_build.specs.ConnectionNodes.{input_node, output_node, port_value, item_with, connection_item, driven_by};
ghost use Rattle.unit_build.specs.Outputs.{output_faults, output_mentions};
ghost use Rattle.unit_build.specs.Views.{connected_of};

use crate::connection::Connection;
use crate::driving::size_output;
use crate::sized_output::SizedOutput;
use ls_text::{NoMemory, Refusal};
use std::alloc::Global;
use typed_ir::{
    ChildId, ItemBody, ItemPlaces, Lane, Mention, SignalId, Span, TargetForm, Typed, TypedItem,
    UnitNode,
};
use verilog_ast::Expr;
use width_rules::{Due, Scope, close, measure};

// The value of an input of so many bits: at the larger of both lengths, by its own sign; or its first fault, or want of memory.
#[tactic(auto, using(width_rules::proofs::Firsts::earlier, width_rules::proofs::Firsts::later, width_rules::proofs::Firsts::neither, width_rules::proofs::Opening::pushed))]
fn assigned(alloc: Global, scope: &Scope, width: u8, value: &Expr) -> Result<Typed, Refusal>
    requires { width ≤ 128 }
    ensures faultless { IfOk result (λ _. faults (scope_of scope.now) AnyValue (expression_of value.now) ≡ []) }
    ensures form { IfOk result (λ x. sized x.form ≡ assigned (scope_of scope.now) width (expression_of value.now)) }
    ensures fault { IfErr result (IsFirst (faults (scope_of scope.now) AnyValue (expression_of value.now))) }
{
    let m = measure(alloc, scope, Due::AnyValue, value)?;
    let length = width.max(m.length);
    Ok(close(alloc, m.form, length, m.signed)?)
}

// A signal as a whole, at a length and a sign.
fn extended_name(
    alloc: Global,
    signal: u32,
    width: u8,
    length: u8,
    signed: bool,
) -> Result<Typed, NoMemory>
    requires some { 1 ≤ width }
    requires few { width ≤ 128 }
    requires long { 1 ≤ length }
    requires short { length ≤ 128 }
    ensures { IfOk result (λ x. sized x.form ≡ extended (Name signal width) length signed) }
{
    let name = Typed::name(SignalId(signal), width);
    if width == length {
        return Ok(name);
    }
    Typed::resized(alloc, name, length, signed)
}

// All bits of a port.
fn whole_port(alloc: Global, port: u32, width: u8) -> Result<Vec<Lane>, NoMemory>
    ensures { IfOk result (λ lanes. lanes.items ≡ record { shift = 0; span = record { signal = port; low = 0; width = width } } ∷ []) }
{
    let mut lanes = Vec::new(alloc);
    lanes.push(Lane {
        shift: 0,
        span: Span {
            signal: SignalId(port),
            low: 0,
            width,
        },
    })?;
    Ok(lanes)
}

// The node of an input.
fn size_input(
    alloc: Global,
    scope: &Scope,
    child: ChildId,
    c: &Connection<'_>,
) -> Result<UnitNode, Refusal>
    ensures faultless { IfOk result (λ _. faults (scope_of scope.now) AnyValue (connected_of c.now).value ≡ []) }
    ensures node { IfOk result (λ x. unit_node_of x ≡ input_node (scope_of scope.now) child (connected_of c.now)) }
    ensures fault { IfErr result (IsFirst (faults (scope_of scope.now) AnyValue (connected_of c.now).value)) }
{
    let value = assigned(alloc, scope, c.shape.width, c.value)?;
    let lanes = whole_port(alloc, c.port, c.shape.width)?;
    Ok(UnitNode::Into {
        child,
        form: TargetForm::Name,
        lanes,
        value,
    })
}

// The item of a connection with this node.
fn placed(alloc: Global, c: &Connection<'_>, node: UnitNode, targets: Vec<Mention>) -> TypedItem
    ensures { item_of result ≡ item_with (unit_node_of node) targets.items (connected_of c.now) }
{
    TypedItem {
        body: ItemBody::Node(node),
        places: ItemPlaces {
            at: c.value.place(),
            targets,
            reads: Vec::new(alloc),
        },
    }
}

// The node of an output, which drives this.
fn output_node(
    alloc: Global,
    child: ChildId,
    c: &Connection<'_>,
    form: TargetForm,
    lanes: Vec<Lane>,
    width: u8,
) -> Result<UnitNode, NoMemory>
    requires { width ≤ 128 }
    ensures { IfOk result (λ x. unit_node_of x ≡ From child form lanes.items (port_value (connected_of c.now) width)) }
{
    let length = width.max(c.shape.width);
    let value = extended_name(alloc, c.port, c.shape.width, length, c.shape.signed)?;
    Ok(UnitNode::From {
        child,
        form,
        lanes,
        value,
    })
}

// The item of an output.
fn size_driven(
    alloc: Global,
    scope: &Scope,
    child: ChildId,
    c: &Connection<'_>,
) -> Result<TypedItem, Refusal>
    ensures faultless { IfOk result (λ _. output_faults (scope_of scope.now) (connected_of c.now).value ≡ []) }
    ensures item { IfOk result (λ x. item_of x
        ≡ item_with (output_node (scope_of scope.now) child (connected_of c.now) (driven_by (connected_of c.now))) (output_mentions (connected_of c.now).value) (connected_of c.now)) }
    ensures fault { IfErr result (IsFirst (output_faults (scope_of scope.now) (connected_of c.now).value)) }
{
    let SizedOutput {
        form,
        lanes,
        width,
        mentions,
    } = size_output(alloc, scope, c.value)?;
    let node = output_node(alloc, child, c, form, lanes, width)?;
    Ok(placed(alloc, c, node, mentions))
}

/// The item of a connection of this child (IEEE Std 1364-2005, 5.4.1, 12.3.9): the first fault of its expression, of an output as of
/// `size_output`; or want of memory.
pub fn size_connection(
    alloc: Global,
    scope: &Scope,
    child: ChildId,
    c: &Connection<'_>,
) -> Result<TypedItem, Refusal>
    ensures faultless { IfOk result (λ _. connection_faults (scope_of scope.now) (connected_of c.now) ≡ []) }
    ensures item { IfOk result (λ x. item_of x ≡ connection_item (scope_of scope.now) child (connected_of c.now)) }
    ensures fault { IfErr result (IsFirst (connection_faults (scope_of scope.now) (connected_of c.now))) }
{
    if !c.shape.input {
        return size_driven(alloc, scope, child, c);
    }
    let node = size_input(alloc, scope, child, c)?;
    Ok(placed(alloc, c, node, Vec::new(alloc)))
}
