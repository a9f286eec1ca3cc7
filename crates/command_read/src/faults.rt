// The faults of a script's lines.
ghost use Rattle.std.specs.Prelude.{◌≡◌, ◌<◌, [], ◌∷◌, length, IfOk, ℕ, List};
ghost use Rattle.std.specs.List.{All};
ghost use Rattle.ls_text.specs.Texts.{Grows, text_at};
ghost use Rattle.ls_text.specs.Readings.{CanShow, fault_view};
ghost use Rattle.command_read.specs.Asking.{fault_on};
ghost use Rattle.command_read.specs.Spoken.{IsFault};

use ls_text::{At, Fault, NameId, NameList, Names, NoMemory, Refusal};
use std::alloc::Global;

/// A fault of a line that shows no word. It takes no memory.
pub fn wordless(alloc: Global, code: u8, line: u64) -> Fault
    ensures { result ≡ record { code = code; at = At.Line line; names = [] } }
{
    Fault {
        code,
        at: At::Line(line),
        names: NameList::new(Vec::new(alloc)),
    }
}

fn one_name(alloc: Global, id: NameId) -> Result<NameList, NoMemory>
    ensures { IfOk result (λ l. l ≡ id ∷ []) }
{
    let mut ids = Vec::new(alloc);
    ids.push(id)?;
    Ok(NameList::new(ids))
}

fn try_showing(
    alloc: Global,
    names: &mut Names,
    code: u8,
    line: u64,
    word: &[u8],
) -> Result<Fault, NoMemory>
    ensures fault { IfOk result (λ f. fault_view names.new f ≡ fault_on code line (word.now ∷ [])) }
    ensures named { IfOk result (λ f. All (λ id. id.0 < length names.new) f.names) }
    ensures grows { Grows names.old names.new }
{
    let id = names.intern(word)?;
    Ok(Fault {
        code,
        at: At::Line(line),
        names: one_name(alloc, id)?,
    })
}

/// A fault of a line that shows a word, whose name is added to the table; or want of memory.
pub fn showing(alloc: Global, names: &mut Names, code: u8, line: u64, word: &[u8]) -> Refusal
    ensures fault { IsFault names.new result (fault_on code line (word.now ∷ [])) }
    ensures named { CanShow (length names.new) result }
    ensures grows { Grows names.old names.new }
{
    match try_showing(alloc, names, code, line, word) {
        Ok(fault) => Refusal::Fault(fault),
        Err(_) => Refusal::NoMemory,
    }
}

/// A fault of a line that shows a name of the table; or want of memory.
pub fn naming(alloc: Global, code: u8, line: u64, name: NameId) -> Refusal
    ensures fault { (names : List (List ℕ)) → IsFault names result (fault_on code line (text_at names name.0 ∷ [])) }
    ensures named { (count : ℕ) → name.0 < count → CanShow count result }
{
    match one_name(alloc, name) {
        Ok(names) => Refusal::Fault(Fault {
            code,
            at: At::Line(line),
            names,
        }),
        Err(_) => Refusal::NoMemory,
    }
}
