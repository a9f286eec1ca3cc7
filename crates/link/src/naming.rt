// Nodes to what they are called, by their first targets.
ghost use Rattle.std.specs.Prelude.{◌≡◌, ◌<◌, ◌++◌, All, IfOk, OnOk, length, map};
ghost use Rattle.ls_text.specs.Texts.{Grows};
ghost use Rattle.typed_ir.specs.FlatNodes.{node_of};
ghost use Rattle.typed_ir.specs.Flats.{signal_of};
ghost use Rattle.typed_ir.specs.Linkeds.{flat};
ghost use Rattle.typed_ir.specs.Paths.{path_above, paths_of, dotted};
ghost use Rattle.ls_text.specs.TextViews.{text_items, text_of};
ghost use Rattle.link.specs.Names.{form_of, node_text, select_text, target_text};

use crate::targeting::first_target;
use ls_text::{NameId, Names, NoMemory, push_decimal};
use std::alloc::Global;
use typed_ir::{Flat, InstanceId, InstanceName, Node, NodeId, Signal, Span, TargetForm};

// The path of an instance, each of its names with a dot behind it; nothing above the top.
fn push_path(
    out: &mut Vec<u8>,
    names: &Names,
    rows: &[InstanceName],
    instance: Option<InstanceId>,
) -> Result<(), NoMemory>
    ensures { OnOk result (out.new.items ≡ out.old.items ++ dotted names.now (path_above (paths_of rows.now) instance)) }
{
    let number = match instance {
        None => return Ok(()),
        Some(number) => number,
    };
    let at = number.index();
    if at >= rows.len() {
        return Ok(());
    }
    let (earlier, _) = rows.split_at(at);
    let this = rows[at];
    push_path(out, names, earlier, this.parent)?;
    out.extend_from_slice(names.text(this.name))?;
    out.push(b'.')?;
    Ok(())
}

// Bits of a signal, counted with the lower bound of its range: `[3]` or `[7:0]`; nothing where the name alone is shown.
fn push_select(out: &mut Vec<u8>, form: TargetForm, lsb: u32, span: Span) -> Result<(), NoMemory>
    ensures { OnOk result (out.new.items ≡ out.old.items ++ select_text form lsb span) }
{
    let low = u64::from(lsb) + u64::from(span.low);
    match form {
        TargetForm::Name => Ok(()),
        TargetForm::Bit => {
            out.push(b'[')?;
            push_decimal(out, low)?;
            out.push(b']')?;
            Ok(())
        }
        TargetForm::Range => {
            let high = (low + u64::from(span.width)).saturating_sub(1);
            out.push(b'[')?;
            push_decimal(out, high)?;
            out.push(b':')?;
            push_decimal(out, low)?;
            out.push(b']')?;
            Ok(())
        }
    }
}

// Bits of a signal of a design: its path, its name, and the bits.
fn push_target(
    out: &mut Vec<u8>,
    names: &Names,
    rows: &[InstanceName],
    signals: &[Signal],
    form: TargetForm,
    target: Option<Span>,
) -> Result<(), NoMemory>
    ensures { OnOk result (out.new.items ≡ out.old.items ++ target_text names.now (map (signal_of rows.now) signals.now) form target) }
{
    let span = match target {
        None => return Ok(()),
        Some(span) => span,
    };
    let at = span.signal.index();
    if at >= signals.len() {
        return Ok(());
    }
    let x = signals[at];
    push_path(out, names, rows, Some(x.instance))?;
    out.extend_from_slice(names.text(x.name))?;
    push_select(out, form, x.lsb, span)?;
    Ok(())
}

fn form_of(node: &Node) -> TargetForm
    ensures { result ≡ form_of (node_of node.now) }
{
    match node {
        Node::Drive { form, .. } => *form,
        Node::Block { shown, .. } => shown.form,
    }
}

// What a node is called.
fn text_of_node(
    alloc: Global,
    names: &Names,
    design: &Flat,
    node: NodeId,
) -> Result<Vec<u8>, NoMemory>
    ensures { IfOk result (λ text. text.items ≡ node_text names.now (flat design.now) node) }
{
    let mut text = Vec::new(alloc);
    let nodes: &[Node] = &design.nodes;
    let at = node.index();
    if at >= nodes.len() {
        return Ok(text);
    }
    let this = &nodes[at];
    push_target(
        &mut text,
        names,
        &design.instances.rows,
        &design.signals,
        form_of(this),
        first_target(this),
    )?;
    Ok(text)
}

/// What these nodes are called.
pub fn texts_of(
    alloc: Global,
    names: &Names,
    design: &Flat,
    circle: &[NodeId],
) -> Result<Vec<Vec<u8>>, NoMemory>
    ensures { IfOk result (λ texts. map text_items texts.items ≡ map (node_text names.now (flat design.now)) circle.now) }
{
    let mut texts = Vec::new(alloc);
    for node in circle {
        let text = text_of_node(alloc, names, design, *node)?;
        texts.push(text)?;
    }
    Ok(texts)
}

/// The names of these texts, which the table has afterwards.
pub fn named(alloc: Global, names: &mut Names, texts: &[Vec<u8>]) -> Result<Vec<NameId>, NoMemory>
    ensures texts { IfOk result (λ ids. map (text_of names.new) ids.items ≡ map text_items texts.now) }
    ensures within { IfOk result (λ ids. All (λ id. id.0 < length names.new) ids.items) }
    ensures grows { Grows names.old names.new }
{
    let mut ids = Vec::new(alloc);
    for text in texts {
        let id = names.intern(text)?;
        ids.push(id)?;
    }
    Ok(ids)
}
