// Refusals of commands.
ghost use Rattle.std.specs.Prelude.{◌≡◌, ◌<◌, ◌∷◌, [], ℕ, List, length, map, IfOk};
ghost use Rattle.std.specs.List.{All};
ghost use Rattle.ls_text.specs.Readings.{fault_view};
ghost use Rattle.ls_text.specs.Texts.{text_at};
ghost use Rattle.live_session.specs.Files.{text_file};
ghost use Rattle.live_session.specs.Turns.{Refuses};
ghost use Rattle.live_session.specs.Worlds.{refused_at, refused_text};

use crate::reply::Reply;
use ls_text::{At, Fault, NameId, NameList, Names, NoMemory, SourceFile, TextBytes, fault_line};
use std::alloc::Global;

/// The reply that refuses a block for a fault in these files; its `edit` has that line.
pub fn refused_text(
    alloc: Global,
    names: &Names,
    files: &[SourceFile],
    line: u64,
    fault: &Fault,
) -> Result<Reply, NoMemory>
    requires files { All (λ f. f.name.0 < length names.now) files.now }
    requires names { All (λ id. id.0 < length names.now) fault.now.names }
    ensures { IfOk result (Refuses (refused_text (map (text_file names.now) files.now) line (fault_view names.now fault.now))) }
{
    let text = fault_line(alloc, names, files, line, fault)?;
    Ok(Reply {
        lines: TextBytes::new(text),
        refused: true,
        quit: false,
    })
}

/// The fault of a line that shows this name.
pub fn named_fault(alloc: Global, code: u8, line: u64, name: NameId) -> Result<Fault, NoMemory>
    ensures { IfOk result (λ f. f ≡ record { code = code; at = At.Line line; names = name ∷ [] }) }
{
    Ok(Fault {
        code,
        at: At::Line(line),
        names: NameList::new(vec![in alloc; name]?),
    })
}

/// The reply that refuses the command of a line, and shows this name.
pub fn refused_name(
    alloc: Global,
    names: &Names,
    code: u8,
    line: u64,
    name: NameId,
) -> Result<Reply, NoMemory>
    requires { name.0 < length names.now }
    ensures { IfOk result (Refuses (refused_at code line (text_at names.now name.0 ∷ []))) }
{
    let fault = named_fault(alloc, code, line, name)?;
    refused_text(alloc, names, &[], line, &fault)
}

/// The reply that refuses the command of a line, and shows no name.
pub fn refused_line(alloc: Global, names: &Names, code: u8, line: u64) -> Result<Reply, NoMemory>
    ensures { IfOk result (Refuses (refused_at code line [])) }
{
    let fault = Fault {
        code,
        at: At::Line(line),
        names: NameList::new(Vec::new(alloc)),
    };
    refused_text(alloc, names, &[], line, &fault)
}
