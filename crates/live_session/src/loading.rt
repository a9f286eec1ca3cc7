// The files that a block loads from a shelf.
ghost use Rattle.std.specs.Prelude.{◌≡◌, ◌⊎◌, length, map, IfOk, OnErr};
ghost use Rattle.ls_port.specs.Causes.{Rose};
ghost use Rattle.command_read.specs.Spoken.{AreLoadsWithin, loaded_file};
ghost use Rattle.live_session.specs.Loaded.{ComesTo, Loses};

use crate::loads::Loads;
use crate::refusing::named_fault;
use command_read::LoadLine;
use ls_port::{Shelf, ShelfRefusal};
use ls_text::{Names, NoMemory, SourceFile, TextBytes};
use std::alloc::Global;

/// The most bytes that a text has.
const MAX_TEXT: usize = 4_194_304;

/// Reads the files of these loads, one after the other, up to the first fault.
pub fn loaded<F: Shelf>(
    alloc: Global,
    names: &Names,
    shelf: &mut F,
    loads: &[LoadLine],
) -> Result<Loads, NoMemory>
    requires { AreLoadsWithin (length names.now) loads.now }
    ensures comes { IfOk result (ComesTo names.now loads.now (F.answers shelf.old) (F.answers shelf.new) (F.faults shelf.old) (F.faults shelf.new)) }
    ensures lost { OnErr result (Loses (map (loaded_file names.now) loads.now) (F.answers shelf.old) (F.answers shelf.new)) }
    ensures cause { OnErr result ((F.faults shelf.new ≡ F.faults shelf.old) ⊎ Rose (F.faults shelf.old) (F.faults shelf.new)) }
{
    let mut files = Vec::new(alloc);
    for load in loads {
        match shelf.read(alloc, names.text(load.name)) {
            Err(ShelfRefusal::NoMemory) => return Err(NoMemory),
            Err(ShelfRefusal::Failed) => {
                return Ok(Loads::Refused(named_fault(alloc, 67, load.line, load.name)?));
            }
            Ok(text) if text.len() > MAX_TEXT => {
                return Ok(Loads::Refused(named_fault(alloc, 10, load.line, load.name)?));
            }
            Ok(text) => files.push(SourceFile {
                name: load.name,
                text: TextBytes::new(text),
            })?,
        }
    }
    Ok(Loads::Given(files))
}
