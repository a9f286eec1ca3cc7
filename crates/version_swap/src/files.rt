// The files behind an edit.
ghost use Rattle.std.specs.Prelude.{◌≡◌, ◌≤◌, ◌<◌, [], length, map, IfOk, IfErr, OnOk, nat_lt};
ghost use Rattle.std.specs.List.{prefix_len};
ghost use Rattle.version_swap.specs.Files as f;
ghost use Rattle.version_swap.specs.FileViews.{files_of};

use command_read::{Edit, FileLine, LoadLine};
use indexmap::IndexMap;
use ls_text::{NameId, NoMemory, SourceFile, TextBytes};
use std::alloc::Global;

// One file more.
#[tactic(auto, using(crate::proofs::Named::put_file))]
fn add(
    alloc: Global,
    files: &mut IndexMap<NameId, TextBytes>,
    file: &SourceFile,
) -> Result<(), NoMemory>
    ensures { OnOk result (files_of files.new.entries ≡ f.with_file (files_of files.old.entries) file.now) }
{
    let text = Vec::from_slice(alloc, file.text.bytes())?;
    files.insert(file.name, TextBytes::new(text))?;
    Ok(())
}

// Further files.
fn add_all(
    alloc: Global,
    files: &mut IndexMap<NameId, TextBytes>,
    more: &[SourceFile],
) -> Result<(), NoMemory>
    ensures { OnOk result (files_of files.new.entries ≡ f.with_files (files_of files.old.entries) more.now) }
{
    for file in more {
        add(alloc, files, file)?;
    }
    Ok(())
}

// How many loads, from the first on, stand before a line.
fn before(line: u64, loads: &[LoadLine]) -> usize
    ensures count { result ≡ f.before line loads.now }
    ensures within { result ≤ length loads.now }
{
    loads.iter().take_while(|load| load.line < line).count()
}

// The files that an edit gives and loads, in line order.
fn add_edited(
    alloc: Global,
    files: &mut IndexMap<NameId, TextBytes>,
    given: &[FileLine],
    loads: &[LoadLine],
    loaded: &[SourceFile],
) -> Result<(), NoMemory>
    requires { length loaded.now ≡ length loads.now }
    ensures { OnOk result (files_of files.new.entries ≡ f.with_files (files_of files.old.entries) (f.in_line_order given.now loads.now loaded.now)) }
{
    let mut lines = loads;
    let mut texts = loaded;
    for one in given {
        let first = before(one.line, lines);
        let (earlier, later) = texts.split_at(first);
        add_all(alloc, files, earlier)?;
        add(alloc, files, &one.file)?;
        let (_, rest) = lines.split_at(first);
        lines = rest;
        texts = later;
    }
    add_all(alloc, files, texts)
}

// The files as a list.
fn listed(alloc: Global, files: IndexMap<NameId, TextBytes>) -> Result<Vec<SourceFile>, NoMemory>
    ensures { IfOk result (λ all. all.items ≡ files_of files.entries) }
{
    let mut all = Vec::new(alloc);
    for (name, text) in files {
        all.push(SourceFile { name, text })?;
    }
    Ok(all)
}

/// The files behind an edit: those before it, and then those that it gives and loads, in line order; `loaded` has the files that it loads. A
/// file that is named again keeps its place and gets the new text.
pub fn files_behind(
    alloc: Global,
    before: &[SourceFile],
    edit: &Edit,
    loaded: &[SourceFile],
) -> Result<Vec<SourceFile>, NoMemory>
    requires { length loaded.now ≡ length edit.now.loads }
    ensures { IfOk result (λ all. all.items ≡ f.files_behind before.now edit.now.files edit.now.loads loaded.now) }
{
    let mut files = IndexMap::new(alloc);
    add_all(alloc, &mut files, before)?;
    add_edited(
        alloc,
        &mut files,
        edit.files.as_slice(),
        edit.loads.as_slice(),
        loaded,
    )?;
    listed(alloc, files)
}
