// The labels of a case: their first fault, or what they are until the case's length and sign are known, and then at both.
ghost use Rattle.std.specs.Prelude.{◌≡◌, ◌≤◌, [], map, IfOk, IfErr};
ghost use Rattle.typed_ir.specs.Statements.{item_of};
ghost use Rattle.verilog_ast.specs.Views.{label_of};
ghost use Rattle.statement_rules.specs.Cases.{label_form, label_bits, label_sign, open_label, closed_label};
ghost use Rattle.width_rules.specs.Entries.{scope_of};
ghost use Rattle.width_rules.specs.Faults.{IsFirst, total_faults};
ghost use Rattle.width_rules.specs.Sizes.{literal_length};
ghost use Rattle.statement_rules.specs.Statements.{label_length, label_signed, labels_length, labels_signed, label_faults, labels_faults};

use crate::open_label::OpenLabel;
use crate::open_labels::OpenLabels;
use bits::Bits;
use ls_text::{NoMemory, Place, Refusal};
use std::alloc::Global;
use typed_ir::{Item, Typed};
use verilog_ast::{Label, Pattern};
use width_rules::{Due, Scope, close, measure, refused};

// The length of a literal with don't-care digits: 1 to 128, else 31.
fn pattern_length(alloc: Global, at: Place, pattern: Pattern) -> Result<u8, Refusal>
    ensures faultless { IfOk result (λ _. total_faults at (literal_length pattern.size) ≡ []) }
    ensures some { IfOk result (λ length. 1 ≤ length) }
    ensures few { IfOk result (λ length. length ≤ 128) }
    ensures length { IfOk result (λ length. length ≡ literal_length pattern.size) }
    ensures fault { IfErr result (IsFirst (total_faults at (literal_length pattern.size))) }
{
    let length = if pattern.size == 0 { 32 } else { pattern.size };
    if length > 128 {
        return Err(refused(alloc, 31, at, None));
    }
    Ok(length)
}

// A label.
fn measure_label(alloc: Global, scope: &Scope, label: &Label) -> Result<OpenLabel, Refusal>
    ensures faultless { IfOk result (λ _. label_faults (scope_of scope.now) (label_of label.now) ≡ []) }
    ensures form { IfOk result (λ x. label_form x ≡ open_label (scope_of scope.now) (label_of label.now)) }
    ensures length { IfOk result (λ x. label_bits x ≡ label_length (scope_of scope.now) (label_of label.now)) }
    ensures signed { IfOk result (λ x. label_sign x ≡ label_signed (scope_of scope.now) (label_of label.now)) }
    ensures fault { IfErr result (IsFirst (label_faults (scope_of scope.now) (label_of label.now))) }
{
    match label {
        Label::Pattern(at, pattern) => {
            let length = pattern_length(alloc, *at, *pattern)?;
            let ignored = Bits::new(length, pattern.mask).value;
            Ok(OpenLabel::DontCare(Bits::new(length, pattern.value), ignored))
        }
        Label::Expr(value) => {
            let m = measure(alloc, scope, Due::AnyValue, value.get())?;
            Ok(OpenLabel::Compared(m))
        }
    }
}

// The length of a label.
fn length_of(label: &OpenLabel) -> u8
    ensures length { result ≡ label_bits label.now }
    ensures few { result ≤ 128 }
{
    match label {
        OpenLabel::DontCare(bits, _) => bits.width,
        OpenLabel::Compared(m) => m.length,
    }
}

// Whether a label is signed; a literal with don't-care digits isn't.
fn is_signed(label: &OpenLabel) -> bool
    ensures { result ≡ label_sign label.now }
{
    match label {
        OpenLabel::DontCare(_, _) => false,
        OpenLabel::Compared(m) => m.signed,
    }
}

/// The labels of an item of a case; or the first fault from left to right, or want of memory.
#[tactic(auto, using(width_rules::proofs::Firsts::earlier, width_rules::proofs::Firsts::later, width_rules::proofs::Firsts::neither, crate::proofs::Listing::label_ahead, crate::proofs::Listing::label_fault, crate::proofs::Gathering::label_longest, crate::proofs::Gathering::label_signs))]
pub fn measure_labels(alloc: Global, scope: &Scope, labels: &[Label]) -> Result<OpenLabels, Refusal>
    ensures faultless { IfOk result (λ _. labels_faults (scope_of scope.now) (map label_of labels.now) ≡ []) }
    ensures form { IfOk result (λ x. map label_form x.labels.items ≡ map (open_label (scope_of scope.now)) (map label_of labels.now)) }
    ensures length { IfOk result (λ x. x.length ≡ labels_length (scope_of scope.now) (map label_of labels.now)) }
    ensures signed { IfOk result (λ x. x.signed ≡ labels_signed (scope_of scope.now) (map label_of labels.now)) }
    ensures fault { IfErr result (IsFirst (labels_faults (scope_of scope.now) (map label_of labels.now))) }
{
    let mut list = Vec::new(alloc);
    let mut length = 0u8;
    let mut signed = true;
    for label in labels {
        let open = measure_label(alloc, scope, label)?;
        length = length.max(length_of(&open));
        signed = signed && is_signed(&open);
        list.push(open)?;
    }
    Ok(OpenLabels {
        labels: list,
        length,
        signed,
    })
}

// A label at the length and the sign of its case.
fn close_label(alloc: Global, label: OpenLabel, length: u8, signed: bool) -> Result<Item, NoMemory>
    requires at_least_one { 1 ≤ length }
    requires at_most_128 { length ≤ 128 }
    ensures { IfOk result (λ x. item_of x ≡ closed_label length signed (label_form label)) }
{
    match label {
        OpenLabel::DontCare(bits, ignored) => Ok(Item {
            ignored,
            item: Typed::constant(bits.resize(length, false)),
        }),
        OpenLabel::Compared(m) => {
            let item = close(alloc, m.form, length, signed)?;
            Ok(Item { ignored: 0, item })
        }
    }
}

/// The labels of an item at the length and the sign of their case.
pub fn close_labels(
    alloc: Global,
    labels: Vec<OpenLabel>,
    length: u8,
    signed: bool,
) -> Result<Vec<Item>, NoMemory>
    requires at_least_one { 1 ≤ length }
    requires at_most_128 { length ≤ 128 }
    ensures { IfOk result (λ xs. map item_of xs.items ≡ map (closed_label length signed) (map label_form labels.items)) }
{
    let mut items = Vec::new(alloc);
    for label in labels {
        items.push(close_label(alloc, label, length, signed)?)?;
    }
    Ok(items)
}
