// From a block to the version that runs behind it.
ghost use Rattle.std.specs.Prelude.{◌≡◌, ◌+◌, ◌≤◌, ◌<◌, ◌^◌, ◌∷◌, [], Ok, Err, None, Some, false, length, codes, map, IfOk, OnErr, OnOk};
ghost use Rattle.std.specs.List.{All};
ghost use Rattle.ls_text.specs.Texts.{Grows, text_at};
ghost use Rattle.module_registry.specs.Views.{entries_of};
ghost use Rattle.version_swap.specs.Held.{AreHeldUnder};
ghost use Rattle.command_read.specs.Spoken.{IsEditWithin, edited};
ghost use Rattle.live_session.specs.Beside.{Stands, settings_by};
ghost use Rattle.live_session.specs.Begins.{Begins, GoesOn, LosesLine, SaysSo, StartsIn};
ghost use Rattle.live_session.specs.Files.{text_file};
ghost use Rattle.live_session.specs.Kept.{IsKept};
ghost use Rattle.live_session.specs.Logs.{marks_of};
ghost use Rattle.live_session.specs.Sessions.{world_of};
ghost use Rattle.live_session.specs.Taken.{LosesBlock, TakesBlock};
ghost use Rattle.live_session.specs.Turns.{Accepts, Refuses};
ghost use Rattle.version_swap.specs.Files as f;
ghost use Rattle.version_swap.specs.Operations.{AreValidBetween, ops_of};
ghost use Rattle.wave_report.specs.Replies.{edit_text};
ghost use Rattle.live_session.specs.Worlds.{refused_text};
ghost use Rattle.ls_text.specs.Readings.{fault_view};

use crate::begun::Begun;
use crate::limits::Limits;
use crate::refusing::refused_text;
use crate::reply::Reply;
use crate::running::Running;
use crate::setting::has_each_once;
use book_history::version::Version;
use checkpoint_book::book::Book;
use command_read::{Edit, OpLine};
use cycle_eval::Design;
use ls_text::{Fault, NameId, Names, NoMemory, Refusal, SourceFile};
use machine::steps::Steps;
use module_registry::Registry;
use reg_ops::RegOps;
use std::alloc::Global;
use std::sync::Arc;
use std::sync::ledger::Ledger;
use std::thread::Threads;
use stimulus::{Record, Row};
use unit_forge::RayonForge;
use version_swap::{FileList, KeyList, Planned, Texts, files_behind, operations_of, plan};
use wave_report::{ReplyKind, reply_line};

// The texts before the first edit.
fn no_texts(alloc: Global, clock: NameId) -> Texts
    ensures files { result.files ≡ [] }
    ensures top { result.top ≡ None }
    ensures clock { result.clock ≡ clock }
{
    Texts {
        files: FileList::new(Vec::new(alloc)),
        top: None,
        clock,
    }
}

// A design with its number.
fn numbered(
    alloc: Global,
    number: u64,
    design: Design,
) -> Result<Arc<Version<Design>, Global>, NoMemory>
    ensures number { IfOk result (λ v. v.value.number ≡ number) }
    ensures design { IfOk result (λ v. v.value.machine.value ≡ design) }
{
    let machine = Arc::new(alloc, design)?;
    Ok(Arc::new(alloc, Version { number, machine })?)
}

// A design at its beginning, which opens the book, with the line that accepts it.
#[tactic(auto, using(cycle_eval::proofs::DesignsShared::design_send, cycle_eval::proofs::DesignsShared::design_sync))]
fn begun(
    alloc: Global,
    limits: Limits,
    book: &mut Book<Design>,
    planned: Planned,
) -> Result<Begun, NoMemory>
    requires stands { Stands limits None book.old }
    requires room { 1 ≤ limits.rooms.session }
    ensures starts { IfOk result (StartsIn limits planned.texts planned.design planned.keys planned.built planned.kept book.old book.new) }
    ensures settings { book.new.settings ≡ book.old.settings }
    ensures before { OnErr result (book.new.events ≡ book.old.events) }
{
    let line = reply_line(
        alloc,
        &ReplyKind::Edit {
            version: 1,
            built: planned.built,
            kept: planned.kept,
            from: 0,
        },
    )?;
    let row = Arc::new(alloc, Row::new(alloc))?;
    let version = numbered(alloc, 1, planned.design)?;
    book.open(Arc::try_clone(&version)?)?;
    book.legal();
    let running = Running {
        texts: planned.texts,
        version,
        keys: planned.keys,
        row,
        record_: Record::new(alloc, limits.stimulus),
        charge: 1,
    };
    Ok(Begun::Accepted { running, line })
}

// The same. Where memory runs out, the units that were made for it go.
fn begun_or_cut(
    alloc: Global,
    registry: &mut Registry,
    limits: Limits,
    book: &mut Book<Design>,
    planned: Planned,
) -> Result<Begun, NoMemory>
    requires stands { Stands limits None book.old }
    requires room { 1 ≤ limits.rooms.session }
    ensures starts { IfOk result (StartsIn limits planned.texts planned.design planned.keys planned.built planned.kept book.old book.new) }
    ensures kept { IfOk result (λ _. entries_of registry.new ≡ entries_of registry.old) }
    ensures settings { book.new.settings ≡ book.old.settings }
    ensures before { OnErr result (book.new.events ≡ book.old.events) }
    ensures none { OnErr result (entries_of registry.new ≡ []) }
{
    match begun(alloc, limits, book, planned) {
        Ok(begun) => Ok(begun),
        Err(NoMemory) => {
            registry.cut(0);
            Err(NoMemory)
        }
    }
}

// The reply that refuses a block for its fault.
fn refused(
    alloc: Global,
    names: &Names,
    texts: &Texts,
    edit: &Edit,
    loaded: &[SourceFile],
    fault: &Fault,
) -> Result<Reply, NoMemory>
    requires loads { length loaded.now ≡ length edit.now.loads }
    requires files { All (λ f. f.name.0 < length names.now) (f.files_behind texts.now.files edit.now.files edit.now.loads loaded.now) }
    requires names { All (λ id. id.0 < length names.now) fault.now.names }
    ensures { IfOk result (Refuses (refused_text
        (map (text_file names.now) (f.files_behind texts.now.files edit.now.files edit.now.loads loaded.now)) edit.now.line (fault_view names.now fault.now))) }
{
    let files = files_behind(alloc, texts.files.as_slice(), edit, loaded)?;
    refused_text(alloc, names, &files, edit.line, fault)
}

/// Takes the first block, whose loads gave these files, where no unit is there yet: its design at its beginning, which opens the book, or its refusal,
/// behind which there is no unit again. `clock` is the clock's name where the block has none.
pub fn begin<R: Threads + Sync>(
    rt: &R,
    alloc: Global,
    names: &mut Names,
    registry: &mut Registry,
    forge: &mut RayonForge,
    clock: NameId,
    limits: Limits,
    book: &mut Book<Design>,
    edit: &Edit,
    loaded: &[SourceFile],
) -> Result<Begun, NoMemory>
    requires none { entries_of registry.old ≡ [] }
    requires clock { clock.0 < length names.old }
    requires clock_is { text_at names.old clock.0 ≡ codes "clk" }
    requires edit { IsEditWithin (length names.old) edit.now }
    requires given { All (λ g. length g.file.text ≤ 4194304) edit.now.files }
    requires loads { length loaded.now ≡ length edit.now.loads }
    requires loaded { All (λ f. length f.text ≤ 4194304) loaded.now }
    requires named { All (λ f. f.name.0 < length names.old) loaded.now }
    requires room { 1 ≤ limits.rooms.session }
    requires stands { Stands limits None book.old }
    ensures begins { IfOk result (Begins names.new limits (edited names.old edit.now) (map (text_file names.old) loaded.now) (entries_of registry.new)
        book.old book.new) }
    ensures settings { OnErr result (book.new.settings ≡ book.old.settings) }
    ensures before { OnErr result (book.new.events ≡ book.old.events) }
    ensures none_left { OnErr result (entries_of registry.new ≡ []) }
    ensures held { AreHeldUnder names.new (entries_of registry.new) }
    ensures grows { Grows names.old names.new }
{
    has_each_once(names);
    let texts = no_texts(alloc, clock);
    let planned = plan(
        rt, alloc, names, registry, forge, &texts, None, edit, loaded,
    );
    has_each_once(names);
    match planned {
        Ok(planned) => begun_or_cut(alloc, registry, limits, book, planned),
        Err(Refusal::NoMemory) => Err(NoMemory),
        Err(Refusal::Fault(fault)) => {
            let reply = refused(alloc, names, &texts, edit, loaded, &fault)?;
            Ok(Begun::Refused(reply))
        }
    }
}

// The number of the version behind this one; a version's number is at most what was charged.
fn number_behind(number: u64, charge: u32) -> u64
    requires { number ≤ charge }
    ensures { result ≡ number + 1 }
{
    number + 1
}

// Has a version run from the book's chosen mark on: its cycle. Where memory runs out, all is as before.
#[tactic(auto, using(cycle_eval::proofs::DesignsShared::design_send, cycle_eval::proofs::DesignsShared::design_sync))]
fn reloaded<L: Ledger>(
    alloc: Global,
    limits: Limits,
    book: &mut Book<Design>,
    running: &mut Running,
    texts: Texts,
    design: Design,
    keys: KeyList,
    lines: &[OpLine],
    steps: &mut Steps<L>,
) -> Result<u64, NoMemory>
    requires stands { Stands limits (Some running.old) book.old }
    requires room { running.old.charge < limits.rooms.session }
    requires valid { AreValidBetween (Some running.old.version.value.machine.value) design lines.now }
    ensures goes_on { IfOk result (λ from. GoesOn (ops_of lines.now) texts design keys from running.old running.new book.old book.new) }
    ensures stands { Stands limits (Some running.new) book.new }
    ensures settings { book.new.settings ≡ book.old.settings }
    ensures before { OnErr result (book.new.events ≡ book.old.events) }
    ensures same { OnErr result (running.new ≡ running.old) }
{
    book.legal();
    let number = number_behind(running.version.number, running.charge);
    let version = numbered(alloc, number, design)?;
    let ops = RegOps::new(operations_of(alloc, lines)?);
    let from = book.reload(Arc::try_clone(&version)?, ops, steps)?;
    book.legal();
    running.texts = texts;
    running.version = version;
    running.keys = keys;
    running.charge += 1;
    Ok(from)
}

// The line that accepts the version that runs.
fn accepting(
    alloc: Global,
    running: &Running,
    built: u32,
    kept: u32,
    from: u64,
) -> Result<Reply, NoMemory>
    ensures { IfOk result (Accepts (edit_text running.now.version.value.number built kept from)) }
{
    let version = running.version.number;
    let line = reply_line(
        alloc,
        &ReplyKind::Edit {
            version,
            built,
            kept,
            from,
        },
    )?;
    Ok(Reply::accepted(line))
}

// The same; where memory runs out, the units behind the first `held` go, which were made for it. The line that accepts it may be lost.
fn accepted<L: Ledger>(
    alloc: Global,
    registry: &mut Registry,
    held: usize,
    limits: Limits,
    book: &mut Book<Design>,
    running: &mut Running,
    planned: Planned,
    lines: &[OpLine],
    steps: &mut Steps<L>,
) -> Result<Reply, NoMemory>
    requires stands { Stands limits (Some running.old) book.old }
    requires room { running.old.charge < limits.rooms.session }
    requires valid { AreValidBetween (Some running.old.version.value.machine.value) planned.design lines.now }
    ensures says { IfOk result (SaysSo (ops_of lines.now) planned.texts planned.design planned.keys planned.built planned.kept running.old running.new book.old book.new) }
    ensures loses { OnErr result (LosesLine (ops_of lines.now) planned.texts planned.design planned.keys held (entries_of registry.old) (entries_of registry.new)
        running.old running.new book.old book.new) }
    ensures kept { IfOk result (λ _. entries_of registry.new ≡ entries_of registry.old) }
    ensures stands { Stands limits (Some running.new) book.new }
{
    let (built, kept) = (planned.built, planned.kept);
    match reloaded(
        alloc,
        limits,
        book,
        running,
        planned.texts,
        planned.design,
        planned.keys,
        lines,
        steps,
    ) {
        Ok(from) => accepting(alloc, running, built, kept, from),
        Err(NoMemory) => {
            registry.cut(held);
            Err(NoMemory)
        }
    }
}

/// Takes a block behind a design that runs, whose loads gave these files: the next version, which is simulated from the book's chosen mark on, or its
/// refusal, behind which the units are those that were held. Where memory runs out, the units are those too, or the line of the version is lost.
pub fn renew<R: Threads + Sync, L: Ledger>(
    rt: &R,
    alloc: Global,
    names: &mut Names,
    registry: &mut Registry,
    forge: &mut RayonForge,
    limits: Limits,
    book: &mut Book<Design>,
    running: &mut Running,
    edit: &Edit,
    loaded: &[SourceFile],
    steps: &mut Steps<L>,
) -> Result<Reply, NoMemory>
    requires kept { IsKept names.old limits running.old }
    requires stands { Stands limits (Some running.old) book.old }
    requires held { AreHeldUnder names.old (entries_of registry.old) }
    requires room { running.old.charge < limits.rooms.session }
    requires edit { IsEditWithin (length names.old) edit.now }
    requires given { All (λ g. length g.file.text ≤ 4194304) edit.now.files }
    requires loads { length loaded.now ≡ length edit.now.loads }
    requires loaded { All (λ f. length f.text ≤ 4194304) loaded.now }
    requires named { All (λ f. f.name.0 < length names.old) loaded.now }
    ensures takes { IfOk result (λ r. TakesBlock (settings_by limits book.old) (edited names.old edit.now) (Ok (map (text_file names.old) loaded.now))
        (world_of names.old (entries_of registry.old) (marks_of book.old) running.old)
        (world_of names.new (entries_of registry.new) (marks_of book.new) running.new) book.old book.new r.lines r.refused) }
    ensures goes_on { IfOk result (λ r. r.quit ≡ false) }
    ensures loses { OnErr result (LosesBlock (settings_by limits book.old) (edited names.old edit.now) (Ok (map (text_file names.old) loaded.now))
        (world_of names.old (entries_of registry.old) (marks_of book.old) running.old)
        (world_of names.new (entries_of registry.new) (marks_of book.new) running.new) book.old book.new) }
    ensures kept { IsKept names.new limits running.new }
    ensures stands { Stands limits (Some running.new) book.new }
    ensures held { AreHeldUnder names.new (entries_of registry.new) }
    ensures grows { Grows names.old names.new }
{
    has_each_once(names);
    let held = registry.len();
    let old: &Design = &running.version.machine;
    let planned = plan(
        rt,
        alloc,
        names,
        registry,
        forge,
        &running.texts,
        Some(old),
        edit,
        loaded,
    );
    has_each_once(names);
    match planned {
        Ok(planned) => accepted(
            alloc,
            registry,
            held,
            limits,
            book,
            running,
            planned,
            edit.ops.as_slice(),
            steps,
        ),
        Err(Refusal::NoMemory) => Err(NoMemory),
        Err(Refusal::Fault(fault)) => refused(alloc, names, &running.texts, edit, loaded, &fault),
    }
}
