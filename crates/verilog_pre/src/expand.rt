// The use of a macro.
ghost use Rattle.std.specs.Prelude.{◌≡◌, ℕ, List, ◌<◌, ◌≤◌, ◌+◌, ◌-◌, ◌*◌, ◌++◌, ◌∷◌, [], length, take, drop, map, IfOk, IfErr, OnOk, Ok};
ghost use Rattle.std.specs.List.{All, list_any};
ghost use Rattle.ls_text.specs.Texts.{Grows};
ghost use Rattle.ls_text.specs.Readings.{fault_at, fault_view, Gives, CanShow, IsNameless};
ghost use Rattle.ls_text.specs.Texts.{text_at};
ghost use Rattle.verilog_pre.specs.Parts.{Read};
ghost use Rattle.verilog_pre.specs.Tables.{table_of, Sound};
ghost use Rattle.verilog_pre.specs.Views.{part_of, item_of, parts_of, work_of, body_work, IsListed, IsListedItem};
ghost use Rattle.verilog_pre.specs.Expansions.{output, emitted, is_open, body_items, work_on, used, expanded, stretch_piece, context, Leads, Placed, Keeps};
ghost use Rattle.verilog_pre.specs.Conditionals.{but_last};

use crate::item::Item;
use crate::macro_body::Macro;
use crate::macros::Macros;
use crate::nest::Nest;
use crate::output::Output;
use crate::part::Part;
use crate::stretch::Stretch;
use crate::table::{named, number_of};
use ls_text::{At, Fault, NameId, NameList, Names, NoMemory, Piece, Place, Refusal, text_fault};
use std::alloc::Global;
use std::collections::VecDeque;

/// The fault 12 of a directive, which shows its word.
#[tactic(auto, using(crate::proofs::Shown::one_word, ls_text::proofs::Shown::one_shown))]
pub fn bad_directive(
    alloc: Global,
    names: &mut Names,
    at: Place,
    word: &[u8],
) -> Result<Fault, NoMemory>
    ensures fault { IfOk result (λ f. fault_view names.new f ≡ fault_at 12 at (word.now ∷ [])) }
    ensures known { IfOk result (λ f. All (λ id. id.0 < length names.new) f.names) }
    ensures grows { Grows names.old names.new }
{
    let mut shown = Vec::with_capacity(alloc, 1)?;
    let name = names.intern(word)?;
    shown.push(name)?;
    Ok(Fault {
        code: 12,
        at: At::Text(at),
        names: NameList::new(shown),
    })
}

/// Adds a piece. A fault 10 at a place tells that its bytes would pass the limit.
#[tactic(auto, unfolding(crate::specs::Expansions::emitted))]
pub fn emit(
    alloc: Global,
    out: &mut Output,
    piece: Piece,
    len: usize,
    at: Place,
) -> Result<(), Refusal>
    ensures piece { (names : List (List ℕ)) → Gives names (λ u. output out.new) result (emitted at piece len (output out.old)) }
    ensures uses { out.new.uses ≡ out.old.uses }
    ensures known { IfErr result IsNameless }
{
    if (out.bytes as usize) < len {
        return Err(Refusal::Fault(text_fault(alloc, 10, at)));
    }
    out.pieces.push(piece)?;
    out.bytes -= len as u32;
    Ok(())
}

// Whether a use of the macro with that number is open.
#[tactic(auto, using(crate::proofs::Nests::open_here, crate::proofs::Nests::not_open))]
fn is_open(places: &[usize], nest: &[usize], number: usize) -> bool
    requires placed { Placed places.now nest.now }
    requires within { number < length places.now }
    ensures { result ≡ is_open nest.now number }
{
    let place = places[number];
    if place < nest.len() {
        nest[place] == number
    } else {
        false
    }
}

// Puts the body of a macro before the work.
#[tactic(auto, unfolding(crate::specs::Views::parts_of))]
fn push_body(nest: &mut Nest, macros: &Macros, body: Macro) -> Result<(), NoMemory>
    requires sound { Sound macros.now }
    requires within { body.last ≤ length macros.now.parts.items }
    requires listed { All (IsListedItem (length macros.now.words)) nest.old.work.items }
    ensures items { OnOk result (nest.new.work.items ≡ body_work macros.now.parts.items body ++ nest.old.work.items) }
    ensures work { OnOk result (work_of macros.now.words nest.new ≡ body_items (parts_of macros.now) body ++ work_of macros.now.words nest.old) }
    ensures listed { OnOk result (All (IsListedItem (length macros.now.words)) nest.new.work.items) }
    ensures open { nest.new.open ≡ nest.old.open }
{
    let mut next = body.last;
    while body.first < next {
        next -= 1;
        nest.work.push_front(Item::Part(macros.parts[next]))?;
    }
    Ok(())
}

// The fault of a word that is used, by its number.
fn bad_use(
    alloc: Global,
    names: &mut Names,
    macros: &Macros,
    at: Place,
    word: NameId,
) -> Result<Fault, NoMemory>
    requires { word.0 < length macros.now.words }
    ensures fault { IfOk result (λ f. fault_view names.new f ≡ fault_at 12 at (text_at macros.now.words word.0 ∷ [])) }
    ensures known { IfOk result (λ f. All (λ id. id.0 < length names.new) f.names) }
    ensures grows { Grows names.old names.new }
{
    bad_directive(alloc, names, at, macros.words.text(word))
}

// Begins the use of a word before the work that is left.
#[tactic(auto, unfolding(crate::specs::Expansions::used, crate::specs::Expansions::work_on))]
fn enter(
    alloc: Global,
    names: &mut Names,
    macros: &mut Macros,
    out: &mut Output,
    nest: &mut Nest,
    at: Place,
    word: NameId,
) -> Result<(), Refusal>
    requires sound { Sound macros.old }
    requires placed { Placed macros.old.places.items nest.old.open.items }
    requires within { word.0 < length macros.old.words }
    requires listed { All (IsListedItem (length macros.old.words)) nest.old.work.items }
    ensures used { Leads names.new result
        (used (context macros.old at) (text_at macros.old.words word.0) nest.old.open.items (output out.old) (work_of macros.old.words nest.old))
        (work_on (context macros.old at) nest.new.open.items (output out.new) (work_of macros.old.words nest.new)) }
    ensures keeps { OnOk result (Keeps macros.old macros.new) }
    ensures words { macros.new.words ≡ macros.old.words }
    ensures sound { OnOk result (Sound macros.new) }
    ensures placed { OnOk result (Placed macros.new.places.items nest.new.open.items) }
    ensures listed { OnOk result (All (IsListedItem (length macros.old.words)) nest.new.work.items) }
    ensures known { IfErr result (CanShow (length names.new)) }
    ensures grows { Grows names.old names.new }
    ensures less { OnOk result (out.new.uses * (length macros.old.parts.items + 2) + length nest.new.work.items
        < out.old.uses * (length macros.old.parts.items + 2) + length nest.old.work.items) }
{
    if out.uses == 0 {
        return Err(Refusal::Fault(text_fault(alloc, 10, at)));
    }
    let Some(body) = named(macros, word) else {
        return Err(Refusal::Fault(bad_use(alloc, names, macros, at, word)?));
    };
    if is_open(&macros.places, &nest.open, body.number) {
        return Err(Refusal::Fault(bad_use(alloc, names, macros, at, word)?));
    }
    out.uses -= 1;
    macros.places[body.number] = nest.open.len();
    nest.open.push(body.number)?;
    nest.work.push_front(Item::Leave)?;
    push_body(nest, macros, body)?;
    Ok(())
}

// Adds the piece of a body's stretch.
fn emit_stretch(alloc: Global, out: &mut Output, at: Place, stretch: Stretch) -> Result<(), Refusal>
    ensures piece { (names : List (List ℕ)) → Gives names (λ u. output out.new) result
        (emitted at (stretch_piece at stretch) (stretch.end - stretch.start) (output out.old)) }
    ensures uses { out.new.uses ≡ out.old.uses }
    ensures known { IfErr result IsNameless }
{
    let piece = Piece {
        file: stretch.file,
        start: stretch.start,
        end: stretch.end,
        at,
        fixed: true,
    };
    let len = stretch.end.saturating_sub(stretch.start) as usize;
    emit(alloc, out, piece, len, at)
}

// Reads a part of a body before the work that is left.
#[tactic(auto, unfolding(crate::specs::Expansions::work_on, crate::specs::Expansions::used), using(crate::proofs::Steps::text_leads, ls_text::proofs::Shown::all_nameless))]
fn read_part(
    alloc: Global,
    names: &mut Names,
    macros: &mut Macros,
    out: &mut Output,
    nest: &mut Nest,
    at: Place,
    part: Part,
) -> Result<(), Refusal>
    requires sound { Sound macros.old }
    requires placed { Placed macros.old.places.items nest.old.open.items }
    requires part { IsListed (length macros.old.words) part }
    requires listed { All (IsListedItem (length macros.old.words)) nest.old.work.items }
    ensures step { Leads names.new result
        (work_on (context macros.old at) nest.old.open.items (output out.old) (Read (part_of macros.old.words part) ∷ work_of macros.old.words nest.old))
        (work_on (context macros.old at) nest.new.open.items (output out.new) (work_of macros.old.words nest.new)) }
    ensures keeps { OnOk result (Keeps macros.old macros.new) }
    ensures words { macros.new.words ≡ macros.old.words }
    ensures sound { OnOk result (Sound macros.new) }
    ensures placed { OnOk result (Placed macros.new.places.items nest.new.open.items) }
    ensures listed { OnOk result (All (IsListedItem (length macros.old.words)) nest.new.work.items) }
    ensures known { IfErr result (CanShow (length names.new)) }
    ensures grows { Grows names.old names.new }
    ensures less { OnOk result (out.new.uses * (length macros.old.parts.items + 2) + length nest.new.work.items
        ≤ out.old.uses * (length macros.old.parts.items + 2) + length nest.old.work.items) }
{
    match part {
        Part::Text(stretch) => emit_stretch(alloc, out, at, stretch),
        Part::Use(word) => enter(alloc, names, macros, out, nest, at, word),
        Part::Open => Err(Refusal::Fault(text_fault(alloc, 12, at))),
    }
}

// Carries out an item before the work that is left.
#[tactic(auto, unfolding(crate::specs::Expansions::work_on))]
fn carry_out(
    alloc: Global,
    names: &mut Names,
    macros: &mut Macros,
    out: &mut Output,
    nest: &mut Nest,
    at: Place,
    next: Item,
) -> Result<(), Refusal>
    requires sound { Sound macros.old }
    requires placed { Placed macros.old.places.items nest.old.open.items }
    requires next { IsListedItem (length macros.old.words) next }
    requires listed { All (IsListedItem (length macros.old.words)) nest.old.work.items }
    ensures step { Leads names.new result
        (work_on (context macros.old at) nest.old.open.items (output out.old) (item_of macros.old.words next ∷ work_of macros.old.words nest.old))
        (work_on (context macros.old at) nest.new.open.items (output out.new) (work_of macros.old.words nest.new)) }
    ensures keeps { OnOk result (Keeps macros.old macros.new) }
    ensures words { macros.new.words ≡ macros.old.words }
    ensures sound { OnOk result (Sound macros.new) }
    ensures placed { OnOk result (Placed macros.new.places.items nest.new.open.items) }
    ensures listed { OnOk result (All (IsListedItem (length macros.old.words)) nest.new.work.items) }
    ensures known { IfErr result (CanShow (length names.new)) }
    ensures grows { Grows names.old names.new }
    ensures less { OnOk result (out.new.uses * (length macros.old.parts.items + 2) + length nest.new.work.items
        ≤ out.old.uses * (length macros.old.parts.items + 2) + length nest.old.work.items) }
{
    match next {
        Item::Part(part) => read_part(alloc, names, macros, out, nest, at, part),
        Item::Leave => {
            leave(nest);
            Ok(())
        }
    }
}

// Ends the innermost use.
fn leave(nest: &mut Nest)
    ensures open { nest.new.open.items ≡ but_last nest.old.open.items }
    ensures work { nest.new.work ≡ nest.old.work }
    ensures placed { (places : List ℕ) → Placed places nest.old.open.items → Placed places nest.new.open.items }
{
    nest.open.pop();
}

// Carries out the work that is left.
#[tactic(auto, unfolding(crate::specs::Expansions::work_on))]
fn work_off(
    alloc: Global,
    names: &mut Names,
    macros: &mut Macros,
    out: &mut Output,
    nest: &mut Nest,
    at: Place,
) -> Result<(), Refusal>
    requires sound { Sound macros.old }
    requires placed { Placed macros.old.places.items nest.old.open.items }
    requires listed { All (IsListedItem (length macros.old.words)) nest.old.work.items }
    ensures pieces { Gives names.new (λ u. output out.new) result
        (work_on (context macros.old at) nest.old.open.items (output out.old) (work_of macros.old.words nest.old)) }
    ensures keeps { OnOk result (Keeps macros.old macros.new) }
    ensures sound { OnOk result (Sound macros.new) }
    ensures known { IfErr result (CanShow (length names.new)) }
    ensures grows { Grows names.old names.new }
{
    while let Some(next) = nest.work.pop_front() {
        match carry_out(alloc, names, macros, out, nest, at, next) {
            Ok(()) => {}
            Err(refusal) => return Err(refusal),
        }
    }
    Ok(())
}

/// The use of a macro in a text: adds the pieces that its body gives. The word is looked up here alone; the words that
/// bodies use were when the bodies were cut.
///
/// 10 at the use where it or one within it would pass the limit of uses, or the bytes of a piece that of bytes; 12
/// where a word is unknown or names a macro that is being expanded.
#[tactic(auto, unfolding(crate::specs::Expansions::expanded, crate::specs::Expansions::work_on))]
pub fn expand(
    alloc: Global,
    names: &mut Names,
    macros: &mut Macros,
    out: &mut Output,
    at: Place,
    word: &[u8],
) -> Result<(), Refusal>
    requires { Sound macros.old }
    ensures pieces { Gives names.new (λ u. output out.new) result (expanded (context macros.old at) word.now (output out.old)) }
    ensures keeps { OnOk result (Keeps macros.old macros.new) }
    ensures sound { OnOk result (Sound macros.new) }
    ensures known { IfErr result (CanShow (length names.new)) }
    ensures grows { Grows names.old names.new }
{
    let mut nest = Nest {
        open: Vec::new(alloc),
        work: VecDeque::new(alloc),
    };
    let number = number_of(macros, word)?;
    match enter(alloc, names, macros, out, &mut nest, at, number) {
        Ok(()) => {}
        Err(refusal) => return Err(refusal),
    }
    work_off(alloc, names, macros, out, &mut nest, at)
}
