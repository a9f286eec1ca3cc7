// Reading texts and files.
ghost use Rattle.std.specs.Prelude.{◌≡◌, ◌<◌, ◌≤◌, ◌+◌, List, Result, length, slice_get, IfOk, IfErr, OnOk};
ghost use Rattle.std.specs.List.{All};
ghost use Rattle.ls_text.specs.Texts.{Grows};
ghost use Rattle.ls_text.specs.Readings.{TextFault, Gives, CanShow};
ghost use Rattle.ls_text.specs.declared.piece.Piece.{Piece};
ghost use Rattle.verilog_pre.specs.FileReadings.{HavePieces};
ghost use Rattle.verilog_pre.specs.Reading.{text_read, ended, file_read, files_from, pieces};
ghost use Rattle.verilog_pre.specs.States.{state};
ghost use Rattle.verilog_pre.specs.Tables.{Sound};

use crate::left_open::left_open;
use crate::output::Output;
use crate::reader::Reader;
use crate::reading::read_turn;
use crate::table::no_macros;
use ls_text::{Names, Piece, Place, Refusal, SourceFile, file_start, place_after};
use std::alloc::Global;

// Reads a text that begins a file.
#[tactic(auto, unfolding(crate::specs::Reading::text_read))]
fn read_text(
    alloc: Global,
    names: &mut Names,
    reader: &mut Reader,
    start: Place,
    text: &[u8],
) -> Result<(), Refusal>
    requires sound { Sound reader.old.macros }
    requires room { length text.now ≤ 4194304 }
    ensures read { Gives names.new (λ u. state reader.new) result (text_read start 0 (state reader.old) text.now) }
    ensures sound { OnOk result (Sound reader.new.macros) }
    ensures known { IfErr result (CanShow (length names.new)) }
    ensures grows { Grows names.old names.new }
{
    let mut rest = text;
    let mut at = start;
    let mut offset = 0u32;
    while !rest.is_empty() {
        let n = match read_turn(alloc, names, reader, at, offset, rest) {
            Ok(n) => n,
            Err(refusal) => return Err(refusal),
        };
        let (bytes, after) = rest.split_at(n);
        at = place_after(at, bytes);
        offset += n as u32;
        rest = after;
    }
    Ok(())
}

// Refuses a conditional that is open, the outermost first.
fn end_file(alloc: Global, names: &mut Names, reader: &Reader) -> Result<(), Refusal>
    ensures ended { Gives names.new (λ u. state reader.now) result (ended (state reader.now) (slice_get reader.now.nest.items 0)) }
    ensures known { IfErr result (CanShow (length names.new)) }
    ensures grows { Grows names.old names.new }
{
    match reader.nest.first().copied() {
        None => Ok(()),
        Some(outermost) => Err(Refusal::Fault(left_open(alloc, names, outermost)?)),
    }
}

// Reads a file.
#[tactic(auto, unfolding(crate::specs::Reading::file_read))]
fn read_file(
    alloc: Global,
    names: &mut Names,
    reader: &mut Reader,
    file: u16,
    text: &[u8],
) -> Result<(), Refusal>
    requires sound { Sound reader.old.macros }
    requires room { length text.now ≤ 4194304 }
    ensures read { Gives names.new (λ u. state reader.new) result (file_read file (state reader.old) text.now) }
    ensures sound { OnOk result (Sound reader.new.macros) }
    ensures known { IfErr result (CanShow (length names.new)) }
    ensures grows { Grows names.old names.new }
{
    match read_text(alloc, names, reader, file_start(file), text) {
        Ok(()) => end_file(alloc, names, reader),
        Err(refusal) => Err(refusal),
    }
}

// Reads all files, in order.
fn read_files(
    alloc: Global,
    names: &mut Names,
    files: &[SourceFile],
    reader: &mut Reader,
) -> Result<(), Refusal>
    requires sound { Sound reader.old.macros }
    requires files { length files.now ≤ 256 }
    requires texts { All (λ f. length f.text ≤ 4194304) files.now }
    ensures read { Gives names.new (λ u. state reader.new) result (files_from 0 (state reader.old) files.now) }
    ensures known { IfErr result (CanShow (length names.new)) }
    ensures grows { Grows names.old names.new }
{
    for (number, file) in files.iter().enumerate() {
        match read_file(alloc, names, reader, number as u16, file.text.bytes()) {
            Ok(()) => {}
            Err(refusal) => return Err(refusal),
        }
    }
    Ok(())
}

// The pieces of files, or the first fault, by the walk over them.
#[tactic(auto, unfolding(crate::specs::Reading::pieces))]
fn pieces_of(alloc: Global, names: &mut Names, files: &[SourceFile]) -> Result<Vec<Piece>, Refusal>
    requires files { length files.now ≤ 256 }
    requires texts { All (λ f. length f.text ≤ 4194304) files.now }
    ensures pieces { Gives names.new (λ ps. ps.items) result (pieces files.now) }
    ensures known { IfErr result (CanShow (length names.new)) }
    ensures grows { Grows names.old names.new }
{
    let mut reader = Reader {
        macros: no_macros(alloc),
        out: Output {
            uses: 1_048_576,
            bytes: 16_777_216,
            pieces: Vec::new(alloc),
        },
        nest: Vec::new(alloc),
    };
    match read_files(alloc, names, files, &mut reader) {
        Ok(()) => Ok(reader.out.pieces),
        Err(refusal) => Err(refusal),
    }
}

/// The pieces of at most 256 files, each of at most 4,194,304 bytes, or the first fault (IEEE 1364-2005, clause 19).
///
/// Comments, directives and skipped text are in no piece. A piece is a longest remaining run of bytes, or a part of
/// the body of a macro that is used; a body has no white space at its two ends, and a part of it has the place of the use in the
/// text.
/// Macros carry over from file to file, conditionals don't.
///
/// Faults: 12 at a directive that can't be carried out, at a comment or a conditional that isn't closed; 10 at the
/// byte or use that would pass 16,777,216 bytes of pieces or 1,048,576 uses. The first is the one that the reading meets
/// first; but where it stands within a conditional that the rest of its file, read as skipped text is, leaves open, that
/// conditional's opening is refused, the outermost's.
pub fn preprocess(
    alloc: Global,
    names: &mut Names,
    files: &[SourceFile],
) -> Result<Vec<Piece>, Refusal>
    requires files { length files.now ≤ 256 }
    requires texts { All (λ f. length f.text ≤ 4194304) files.now }
    ensures pieces { (read : Result (List Piece) TextFault) × HavePieces files.now read × Gives names.new (λ ps. ps.items) result read }
    ensures known { IfErr result (CanShow (length names.new)) }
    ensures grows { Grows names.old names.new }
{
    pieces_of(alloc, names, files)
}
