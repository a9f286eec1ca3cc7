// Looking up and setting what a word names.
ghost use Rattle.std.specs.Prelude.{◌≡◌, ◌<◌, ◌≤◌, [], length, IfOk, IfSome, OnOk};
ghost use Rattle.verilog_pre.specs.Tables.{table_of, with_macro, no_macros, Sound};
ghost use Rattle.verilog_pre.specs.Views.{parts_of};
ghost use Rattle.ls_text.specs.Texts.{IsIdOf, text_at};

use crate::macro_body::Macro;
use crate::macros::Macros;
use ls_text::{NameId, Names, NoMemory};
use std::alloc::Global;

/// No macros.
#[tactic(auto, unfolding(crate::specs::Tables::table_of, crate::specs::Views::parts_of))]
pub fn no_macros(alloc: Global) -> Macros
    ensures table { table_of result ≡ no_macros }
    ensures parts { parts_of result ≡ [] }
    ensures places { result.places.items ≡ [] }
    ensures sound { Sound result }
{
    Macros {
        words: Names::new(alloc),
        known: Vec::new(alloc),
        parts: Vec::new(alloc),
        places: Vec::new(alloc),
    }
}

/// The number of a word in the table of words, which it is added to.
#[tactic(auto, unfolding(crate::specs::Tables::table_of, crate::specs::Views::parts_of), using(crate::proofs::Words::same_table, crate::proofs::Parts::same_parts, crate::proofs::Parts::still_listed))]
pub fn number_of(macros: &mut Macros, word: &[u8]) -> Result<NameId, NoMemory>
    requires { Sound macros.old }
    ensures id { IfOk result (λ id. IsIdOf macros.new.words word.now id.0) }
    ensures table { OnOk result (table_of macros.new ≡ table_of macros.old) }
    ensures parts { OnOk result (parts_of macros.new ≡ parts_of macros.old) }
    ensures kept { macros.new.parts ≡ macros.old.parts }
    ensures places { macros.new.places ≡ macros.old.places }
    ensures sound { OnOk result (Sound macros.new) }
{
    let id = macros.words.intern(word)?;
    Ok(id)
}

/// What the word with that number names.
#[tactic(auto, unfolding(crate::specs::Tables::table_of), using(crate::proofs::Words::found_at))]
pub fn named(macros: &Macros, word: NameId) -> Option<Macro>
    requires sound { Sound macros.now }
    requires within { word.0 < length macros.now.words }
    ensures value { result ≡ table_of macros.now (text_at macros.now.words word.0) }
    ensures body { IfSome result (λ m. m.last ≤ length macros.now.parts.items) }
    ensures place { IfSome result (λ m. m.number < length macros.now.places.items) }
{
    // The table says with a text that no other number has it.
    let _text = macros.words.text(word);
    let index = word.0 as usize;
    if index < macros.known.len() {
        macros.known[index]
    } else {
        None
    }
}

/// What a word names.
pub fn find(macros: &mut Macros, word: &[u8]) -> Result<Option<Macro>, NoMemory>
    requires { Sound macros.old }
    ensures value { IfOk result (λ o. o ≡ table_of macros.old word.now) }
    ensures table { OnOk result (table_of macros.new ≡ table_of macros.old) }
    ensures parts { OnOk result (parts_of macros.new ≡ parts_of macros.old) }
    ensures places { macros.new.places ≡ macros.old.places }
    ensures sound { OnOk result (Sound macros.new) }
{
    let id = number_of(macros, word)?;
    Ok(named(macros, id))
}

// Lists that the words up to an index name something or nothing.
#[tactic(auto, unfolding(crate::specs::Tables::table_of), using(crate::proofs::Words::table_none))]
fn fill(macros: &mut Macros, index: usize) -> Result<(), NoMemory>
    requires sound { Sound macros.old }
    requires within { index < length macros.old.words }
    ensures table { OnOk result (table_of macros.new ≡ table_of macros.old) }
    ensures words { macros.new.words ≡ macros.old.words }
    ensures parts { macros.new.parts ≡ macros.old.parts }
    ensures places { macros.new.places ≡ macros.old.places }
    ensures sound { OnOk result (Sound macros.new) }
    ensures listed { OnOk result (index < length macros.new.known.items) }
{
    while macros.known.len() <= index {
        macros.known.push(None)?;
    }
    Ok(())
}

/// Sets what a word names.
#[tactic(auto, unfolding(crate::specs::Tables::table_of, crate::specs::Views::parts_of), using(crate::proofs::Words::table_set))]
pub fn set(macros: &mut Macros, word: &[u8], named: Option<Macro>) -> Result<(), NoMemory>
    requires sound { Sound macros.old }
    requires body { IfSome named (λ m. m.last ≤ length macros.old.parts.items) }
    requires place { IfSome named (λ m. m.number < length macros.old.places.items) }
    ensures table { OnOk result (table_of macros.new ≡ with_macro word.now named (table_of macros.old)) }
    ensures parts { OnOk result (parts_of macros.new ≡ parts_of macros.old) }
    ensures places { macros.new.places ≡ macros.old.places }
    ensures sound { OnOk result (Sound macros.new) }
{
    let id = number_of(macros, word)?;
    let index = id.0 as usize;
    fill(macros, index)?;
    macros.known[index] = named;
    Ok(())
}
