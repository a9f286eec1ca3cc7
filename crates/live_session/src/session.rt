// A session, and what commands do to it.
ghost use Rattle.std.specs.Prelude.{◌≡◌, ◌≤◌, ◌<◌, ◌^◌, false, is_some, length, codes, IfSome};
ghost use Rattle.std.proofs.Props.{props};
ghost use Rattle.ls_text.specs.Texts.{text_at};
ghost use Rattle.module_registry.specs.Views.{entries_of};
ghost use Rattle.live_session.specs.Kept.{IsKept};

use crate::begun::Begun;
use crate::limits::Limits;
use crate::loading::loaded;
use crate::loads::Loads;
use crate::planning::{begin, renew};
use crate::refusing::{refused_line, refused_text};
use crate::reply::Reply;
use crate::running::Running;
use crate::setting::has_each_once;
use crate::settle_answer::SettleAnswer;
use crate::settling::settle_answer;
use book_turn::{SessionPass, Turn};
use checkpoint_book::book::Book;
use command_read::{Command, Edit, PortValue, ReadEnd, Reader};
use cycle_eval::Design;
use ls_port::{Gate, Shelf, Source};
use ls_text::{Fault, NameId, Names, NoMemory, SourceFile, TextBytes};
use machine::steps::Steps;
use module_registry::Registry;
use std::alloc::Global;
use std::marker::Brand;
use std::sync::Wait;
use std::sync::ledger::{Blank, Ledger};
use std::thread::Threads;
use turn_settle::{links, settle};
use unit_forge::RayonForge;
use wave_report::{ReplyKind, UnitLines, reply_line};

/// A session: its table of names, the units that it has, what makes these, its limits, and the design that runs, where there is one.
///
/// The table only grows, and before the first design there are no units.
#[derive(Drop)]
pub struct Session {
    names: Names,
    /// The clock's name, where no block has named one.
    clock: NameId,
    registry: Registry,
    forge: RayonForge,
    limits: Limits,
    running: Option<Running>,
    ghost clock_is: { text_at names clock.0 ≡ codes "clk" },
    ghost clock_in: { clock.0 < length names },
    ghost in_range: { limits.cycles ≤ 2 ^ 40 },
    ghost none_before: { is_some running ≡ false → length (entries_of registry) ≡ 0 },
    ghost kept: { IfSome running (λ r. IsKept names limits r) } by { Prim.hlevel props },
}

impl Session {
    ghost use Rattle.std.specs.Prelude.{◌⊎◌, ◌+◌, ◌*◌, ℕ, List, [], map, min, nat_lt, true, None, Some, Ok, Err, IfOk, OnErr};
    ghost use Rattle.std.specs.List.{All};
    ghost use Rattle.std.specs.declared.option.Option.{Option};
    ghost use Rattle.book_history.specs.Readers.{links_in};
    ghost use Rattle.book_turn.specs.Passes.{IsOf, known};
    ghost use Rattle.book_turn.specs.Turns.{GoesOn};
    ghost use Rattle.turn_settle.specs.Settled.{HasSettledBeside, HasTriedBeside};
    ghost use Rattle.checkpoint_book.specs.Views.{counts_of};
    ghost use Rattle.ls_text.specs.Texts.{Grows};
    ghost use Rattle.ls_text.specs.Readings.{fault_view};
    ghost use Rattle.ls_port.specs.Causes.{Rose};
    ghost use Rattle.ls_port.specs.declared.shelf_answer.ShelfAnswer.{ShelfAnswer};
    ghost use Rattle.command_read.specs.Asking.{Edits, Sets, Runs, Shows, Settles, AsksStatus, Quits};
    ghost use Rattle.command_read.specs.Formed.{IsFormed};
    ghost use Rattle.command_read.specs.Readers.{
      left,
      still_of,
      has_ended,
      count_taken,
      stopped,
      asked_of,
      IsSoon,
      Takes,
      HandsOut,
      told,
      stop_of,
      end_of,
      IsReadEndWithin,
    };
    ghost use Rattle.command_read.specs.Scripts.{is_quit};
    ghost use Rattle.command_read.specs.Sound.{is_too_much};
    ghost use Rattle.command_read.specs.Spoken.{spoken, setting, edited, IsCommandWithin, IsEditWithin};
    ghost use Rattle.command_read.specs.declared.stop.Stop.{Stop};
    ghost use Rattle.command_read.specs.declared.stop.Stop.TheVariants.{End, NoMemory as OutOfMemory};
    ghost use Rattle.live_session.specs.AtTurn.{StandsAt, log_of};
    ghost use Rattle.live_session.specs.Beside.{StandsBeside, settings_in, world_in};
    ghost use Rattle.live_session.specs.Files.{text_file};
    ghost use Rattle.live_session.specs.Loaded.{AreUsable, result_of};
    ghost use Rattle.live_session.specs.Loads.{LosesAnswers};
    ghost use Rattle.live_session.specs.Logs.{Log, book_in, kit};
    ghost use Rattle.live_session.specs.Sessions.{world, limits_of, names_of, work};
    ghost use Rattle.live_session.specs.SettleAnswers.{settled_up_to};
    ghost use Rattle.live_session.specs.Shown.{settle_text};
    ghost use Rattle.live_session.specs.Steps.{StepsTo, Stops, StopsInTurn, is_settle};
    ghost use Rattle.live_session.specs.Taken.{LosesBlock, TakesBlock};
    ghost use Rattle.live_session.specs.Turns.{Accepts, Answers, StopsAt};
    ghost use Rattle.live_session.specs.Worlds.{fresh};

    /// A session without a design, with these limits. At most 2^40 cycles are run.
    pub fn new(alloc: Global, limits: Limits) -> Result<Session, NoMemory>
        requires { limits.cycles ≤ 2 ^ 40 }
        ensures fresh { IfOk result (λ s. (grid : List ℕ) → world s grid ≡ fresh) }
        ensures limits { IfOk result (λ s. limits_of s ≡ limits) }
        // It stands beside each book without entries that has its rooms.
        ensures beside { IfOk result (λ s. (j : Log) → j.events ≡ [] → j.settings.rooms ≡ limits.rooms → StandsBeside s j) }
    {
        let mut names = Names::new(alloc);
        let clock = names.intern(b"clk")?;
        Ok(Session {
            names,
            clock,
            registry: Registry::new(alloc),
            forge: RayonForge::new(alloc),
            limits,
            running: None,
        })
    }

    /// Reads the next command with the session's table of names; nothing else of it changes.
    pub fn read<S: Source>(&mut self, reader: &mut Reader, source: &mut S) -> ReadEnd
        // What was asked for is what is told, and then what is still asked for, whatever comes behind; and once that was complete nothing
        // more was read.
        ensures goes { stopped reader.old ≡ None → (came : List ℕ) × (kept : List ℕ)
            × Takes (S.left source.old) (S.left source.new) (S.faults source.old) (S.faults source.new) reader.old reader.new came kept
            × HandsOut reader.old reader.new (told (names_of self.new) result) kept × IsSoon reader.old came }

        // Why it stopped, and that nothing was left to hand out then; where memory ran out that isn't said.
        ensures stop { stopped reader.new ≡ stop_of result }
        ensures nothing { stopped reader.old ≡ None → (stopped reader.new ≡ None → ⊥) → (stopped reader.new ≡ Some OutOfMemory → ⊥)
            → asked_of reader.new [] (has_ended reader.new) ≡ [] }
        ensures end { stopped reader.old ≡ None → stopped reader.new ≡ Some End → has_ended reader.new ≡ true }
        // What it may hand out yet falls with each that it tells.
        ensures still { stop_of result ≡ None → still_of reader.new < still_of reader.old }

        ensures much { is_too_much (stopped reader.new) ≡ nat_lt 67108864 (count_taken reader.new) }

        // Nothing is read where something is left to hand out, or the input has ended.
        ensures unread { stopped reader.old ≡ None → (source.new ≡ source.old)
            ⊎ ((has_ended reader.old ≡ false) × (asked_of reader.old [] false ≡ [])) }

        // A stopped reader answers the same again.
        ensures again { (stop : Stop) → stopped reader.old ≡ Some stop
            → (result ≡ end_of stop) × (reader.new ≡ reader.old) × (source.new ≡ source.old) × (names_of self.new ≡ names_of self.old) }

        // The table only grows, and all names that are told are its; what the session means stays.
        ensures within { IsReadEndWithin (length (names_of self.new)) result }
        ensures grows { Grows (names_of self.old) (names_of self.new) }
        ensures kept { (grid : List ℕ) → world self.new grid ≡ world self.old grid }
        ensures beside { (j : Log) → StandsBeside self.old j → StandsBeside self.new j }
        ensures limits { limits_of self.new ≡ limits_of self.old }
    {
        has_each_once(&self.names);
        let end = reader.read_command(&mut self.names, source);
        has_each_once(&self.names);
        end
    }

    /// The reply that refuses a line which `read` refused.
    pub fn refusal(&self, alloc: Global, fault: &Fault) -> Result<Reply, NoMemory>
        requires { All (λ id. id.0 < length (names_of self.now)) fault.now.names }
        ensures steps { IfOk result (λ r. (answers : Option (List ShelfAnswer)) (faults : ℕ) (j : Log) → StandsBeside self.now j
            → StepsTo true (Err (fault_view (names_of self.now) fault.now)) answers answers faults faults self.now self.now j j r.lines r.refused) }
        ensures quits { IfOk result (λ r. r.quit ≡ false) }
    {
        refused_text(alloc, &self.names, &[], 0, fault)
    }

    // How much of the session's room is charged.
    fn charge(&self) -> u32
        ensures { (grid : List ℕ) → result ≡ (world self.now grid).charge }
    {
        match &self.running {
            Some(running) => running.charge,
            None => 0,
        }
    }

    // Takes the first block, whose loads gave these files.
    fn begin<R: Threads + Sync>(
        &mut self,
        rt: &R,
        alloc: Global,
        book: &mut Book<Design>,
        edit: &Edit,
        loaded: &[SourceFile],
    ) -> Result<Reply, NoMemory>
        requires none { is_some self.old.running ≡ false }
        requires beside { StandsBeside self.old book.old }
        requires room { (world_in self.old book.old).charge < (limits_of self.old).rooms.session }
        requires edit { IsEditWithin (length (names_of self.old)) edit.now }
        requires given { All (λ g. length g.file.text ≤ 4194304) edit.now.files }
        requires loads { length loaded.now ≡ length edit.now.loads }
        requires loaded { All (λ f. length f.text ≤ 4194304) loaded.now }
        requires named { All (λ f. f.name.0 < length (names_of self.old)) loaded.now }
        ensures takes { IfOk result (λ r. TakesBlock (settings_in self.old book.old) (edited (names_of self.old) edit.now)
            (Ok (map (text_file (names_of self.old)) loaded.now)) (world_in self.old book.old) (world_in self.new book.new) book.old book.new r.lines r.refused) }
        ensures goes_on { IfOk result (λ r. r.quit ≡ false) }
        ensures loses { OnErr result (LosesBlock (settings_in self.old book.old) (edited (names_of self.old) edit.now)
            (Ok (map (text_file (names_of self.old)) loaded.now)) (world_in self.old book.old) (world_in self.new book.new) book.old book.new) }
        ensures beside { StandsBeside self.new book.new }
        ensures limits { limits_of self.new ≡ limits_of self.old }
        ensures grows { Grows (names_of self.old) (names_of self.new) }
    {
        let begun = begin(
            rt,
            alloc,
            &mut self.names,
            &mut self.registry,
            &mut self.forge,
            self.clock,
            self.limits,
            book,
            edit,
            loaded,
        )?;
        match begun {
            Begun::Refused(reply) => Ok(reply),
            Begun::Accepted { running, line } => {
                self.running = Some(running);
                Ok(Reply::accepted(line))
            }
        }
    }

    // Takes a block behind a design that runs, whose loads gave these files.
    fn renew<R: Threads + Sync, L: Ledger>(
        &mut self,
        rt: &R,
        alloc: Global,
        book: &mut Book<Design>,
        edit: &Edit,
        loaded: &[SourceFile],
        steps: &mut Steps<L>,
    ) -> Result<Reply, NoMemory>
        requires some { is_some self.old.running ≡ true }
        requires beside { StandsBeside self.old book.old }
        requires room { (world_in self.old book.old).charge < (limits_of self.old).rooms.session }
        requires edit { IsEditWithin (length (names_of self.old)) edit.now }
        requires given { All (λ g. length g.file.text ≤ 4194304) edit.now.files }
        requires loads { length loaded.now ≡ length edit.now.loads }
        requires loaded { All (λ f. length f.text ≤ 4194304) loaded.now }
        requires named { All (λ f. f.name.0 < length (names_of self.old)) loaded.now }
        ensures takes { IfOk result (λ r. TakesBlock (settings_in self.old book.old) (edited (names_of self.old) edit.now)
            (Ok (map (text_file (names_of self.old)) loaded.now)) (world_in self.old book.old) (world_in self.new book.new) book.old book.new r.lines r.refused) }
        ensures goes_on { IfOk result (λ r. r.quit ≡ false) }
        ensures loses { OnErr result (LosesBlock (settings_in self.old book.old) (edited (names_of self.old) edit.now)
            (Ok (map (text_file (names_of self.old)) loaded.now)) (world_in self.old book.old) (world_in self.new book.new) book.old book.new) }
        ensures beside { StandsBeside self.new book.new }
        ensures limits { limits_of self.new ≡ limits_of self.old }
        ensures grows { Grows (names_of self.old) (names_of self.new) }
    {
        match &mut self.running {
            Some(running) => renew(
                rt,
                alloc,
                &mut self.names,
                &mut self.registry,
                &mut self.forge,
                self.limits,
                book,
                running,
                edit,
                loaded,
                steps,
            ),
            None => unreachable!(),
        }
    }

    // Takes a block, whose loads gave these files.
    fn block<R: Threads + Sync, L: Ledger>(
        &mut self,
        rt: &R,
        alloc: Global,
        book: &mut Book<Design>,
        edit: &Edit,
        loaded: &[SourceFile],
        steps: &mut Steps<L>,
    ) -> Result<Reply, NoMemory>
        requires beside { StandsBeside self.old book.old }
        requires room { (world_in self.old book.old).charge < (limits_of self.old).rooms.session }
        requires edit { IsEditWithin (length (names_of self.old)) edit.now }
        requires given { All (λ g. length g.file.text ≤ 4194304) edit.now.files }
        requires loads { length loaded.now ≡ length edit.now.loads }
        requires loaded { All (λ f. length f.text ≤ 4194304) loaded.now }
        requires named { All (λ f. f.name.0 < length (names_of self.old)) loaded.now }
        ensures takes { IfOk result (λ r. TakesBlock (settings_in self.old book.old) (edited (names_of self.old) edit.now)
            (Ok (map (text_file (names_of self.old)) loaded.now)) (world_in self.old book.old) (world_in self.new book.new) book.old book.new r.lines r.refused) }
        ensures goes_on { IfOk result (λ r. r.quit ≡ false) }
        ensures loses { OnErr result (LosesBlock (settings_in self.old book.old) (edited (names_of self.old) edit.now)
            (Ok (map (text_file (names_of self.old)) loaded.now)) (world_in self.old book.old) (world_in self.new book.new) book.old book.new) }
        ensures beside { StandsBeside self.new book.new }
        ensures limits { limits_of self.new ≡ limits_of self.old }
        ensures grows { Grows (names_of self.old) (names_of self.new) }
    {
        if self.running.is_some() {
            return self.renew(rt, alloc, book, edit, loaded, steps);
        }
        self.begin(rt, alloc, book, edit, loaded)
    }

    // Takes a block, whose loads came to these.
    fn take<R: Threads + Sync, L: Ledger>(
        &mut self,
        rt: &R,
        alloc: Global,
        book: &mut Book<Design>,
        edit: &Edit,
        loads: &Loads,
        steps: &mut Steps<L>,
    ) -> Result<Reply, NoMemory>
        requires beside { StandsBeside self.old book.old }
        requires room { (world_in self.old book.old).charge < (limits_of self.old).rooms.session }
        requires edit { IsEditWithin (length (names_of self.old)) edit.now }
        requires given { All (λ g. length g.file.text ≤ 4194304) edit.now.files }
        requires usable { AreUsable (length (names_of self.old)) edit.now.loads loads.now }
        ensures takes { IfOk result (λ r. TakesBlock (settings_in self.old book.old) (edited (names_of self.old) edit.now)
            (result_of (names_of self.old) loads.now) (world_in self.old book.old) (world_in self.new book.new) book.old book.new r.lines r.refused) }
        ensures goes_on { IfOk result (λ r. r.quit ≡ false) }
        ensures loses { OnErr result (LosesBlock (settings_in self.old book.old) (edited (names_of self.old) edit.now)
            (result_of (names_of self.old) loads.now) (world_in self.old book.old) (world_in self.new book.new) book.old book.new) }
        ensures beside { StandsBeside self.new book.new }
        ensures limits { limits_of self.new ≡ limits_of self.old }
        ensures grows { Grows (names_of self.old) (names_of self.new) }
    {
        match loads {
            Loads::Refused(fault) => refused_text(alloc, &self.names, &[], 0, fault),
            Loads::Given(files) => self.block(rt, alloc, book, edit, files, steps),
        }
    }

    // Takes a block: 68 where the session's room is full, then the faults of its loads, of its files and of its operations.
    fn edit<R: Threads + Sync, L: Ledger, F: Shelf>(
        &mut self,
        rt: &R,
        alloc: Global,
        book: &mut Book<Design>,
        shelf: &mut F,
        edit: &Edit,
        steps: &mut Steps<L>,
    ) -> Result<Reply, NoMemory>
        requires beside { StandsBeside self.old book.old }
        requires edit { IsEditWithin (length (names_of self.old)) edit.now }
        requires given { All (λ g. length g.file.text ≤ 4194304) edit.now.files }
        ensures steps { IfOk result (λ r. StepsTo true (Ok (Edits (edited (names_of self.old) edit.now))) (F.answers shelf.old) (F.answers shelf.new)
            (F.faults shelf.old) (F.faults shelf.new) self.old self.new book.old book.new r.lines r.refused) }
        ensures goes_on { IfOk result (λ r. r.quit ≡ false) }
        ensures stops { OnErr result (StopsInTurn (Ok (Edits (edited (names_of self.old) edit.now))) (F.answers shelf.old) (F.answers shelf.new)
            (F.faults shelf.old) (F.faults shelf.new) self.old self.new book.old book.new) }
        ensures lost { OnErr result (LosesAnswers self.old (Edits (edited (names_of self.old) edit.now)) (F.answers shelf.old) (F.answers shelf.new)) }
        ensures cause { OnErr result ((F.faults shelf.new ≡ F.faults shelf.old) ⊎ Rose (F.faults shelf.old) (F.faults shelf.new)) }
        ensures beside { StandsBeside self.new book.new }
        ensures limits { limits_of self.new ≡ limits_of self.old }
        ensures grows { Grows (names_of self.old) (names_of self.new) }
    {
        if self.charge() >= self.limits.rooms.session {
            return refused_line(alloc, &self.names, 68, edit.line);
        }
        let loads = loaded(alloc, &self.names, shelf, edit.loads.as_slice())?;
        self.take(rt, alloc, book, edit, &loads, steps)
    }

    // Sets inputs; 62 without a design.
    fn set(
        &mut self,
        alloc: Global,
        book: &Book<Design>,
        line: u64,
        values: &[PortValue],
    ) -> Result<Reply, NoMemory>
        requires beside { StandsBeside self.old book.now }
        requires within { All (λ v. v.port.0 < length (names_of self.old)) values.now }
        ensures answers { IfOk result (Answers (Sets line (map (setting (names_of self.old)) values.now)) self.old self.new book.now book.now) }
        ensures goes_on { IfOk result (λ r. r.quit ≡ false) }
        ensures stops { OnErr result (StopsAt (Sets line (map (setting (names_of self.old)) values.now)) self.old self.new book.now book.now) }
        ensures beside { StandsBeside self.new book.now }
        ensures limits { limits_of self.new ≡ limits_of self.old }
        ensures grows { Grows (names_of self.old) (names_of self.new) }
    {
        match &mut self.running {
            Some(running) => running.set(alloc, &self.names, self.limits, line, values),
            None => refused_line(alloc, &self.names, 62, line),
        }
    }

    // Runs so many cycles, whose steps are counted; 62 without a design.
    #[tactic(auto, using(cycle_eval::proofs::DesignsShared::design_send, cycle_eval::proofs::DesignsShared::design_sync))]
    fn run<L: Ledger>(
        &mut self,
        alloc: Global,
        book: &mut Book<Design>,
        line: u64,
        cycles: u64,
        steps: &mut Steps<L>,
    ) -> Result<Reply, NoMemory>
        requires beside { StandsBeside self.old book.old }
        ensures answers { IfOk result (Answers (Runs line cycles) self.old self.new book.old book.new) }
        ensures goes_on { IfOk result (λ r. r.quit ≡ false) }
        ensures stops { OnErr result (StopsAt (Runs line cycles) self.old self.new book.old book.new) }
        ensures beside { StandsBeside self.new book.new }
        ensures limits { limits_of self.new ≡ limits_of self.old }
        ensures grows { Grows (names_of self.old) (names_of self.new) }
        ensures counted { steps.new ≤ steps.old + cycles * work self.old }
    {
        match &mut self.running {
            Some(running) => {
                let reply = running.run(alloc, &self.names, self.limits, book, line, cycles, steps);
                book.legal();
                reply
            }
            None => refused_line(alloc, &self.names, 62, line),
        }
    }

    // Shows registers; 62 without a design.
    #[tactic(auto, using(cycle_eval::proofs::DesignsShared::design_send, cycle_eval::proofs::DesignsShared::design_sync))]
    fn show(
        &mut self,
        alloc: Global,
        book: &mut Book<Design>,
        line: u64,
        prefix: &[u8],
    ) -> Result<Reply, NoMemory>
        requires beside { StandsBeside self.old book.old }
        ensures answers { IfOk result (Answers (Shows line prefix.now) self.old self.new book.old book.new) }
        ensures goes_on { IfOk result (λ r. r.quit ≡ false) }
        ensures stops { OnErr result (StopsAt (Shows line prefix.now) self.old self.new book.old book.new) }
        ensures beside { StandsBeside self.new book.new }
        ensures limits { limits_of self.new ≡ limits_of self.old }
        ensures grows { Grows (names_of self.old) (names_of self.new) }
    {
        match &mut self.running {
            Some(running) => {
                let reply = running.show(alloc, &self.names, self.limits, book, line, prefix);
                book.legal();
                reply
            }
            None => refused_line(alloc, &self.names, 62, line),
        }
    }

    // Tells what the session is at.
    fn status(&self, alloc: Global, book: &Book<Design>) -> Result<Reply, NoMemory>
        requires beside { StandsBeside self.now book.now }
        ensures answers { IfOk result (λ r. (line : ℕ) → Answers (AsksStatus line) self.now self.now book.now book.now r) }
        ensures goes_on { IfOk result (λ r. r.quit ≡ false) }
    {
        has_each_once(&self.names);
        match &self.running {
            Some(running) => running.status(alloc, book),
            None => Ok(Reply::accepted(reply_line(
                alloc,
                &ReplyKind::Status {
                    version: 0,
                    cycle: 0,
                    marks: 0,
                    units: UnitLines::new(Vec::new(alloc)),
                },
            )?)),
        }
    }

    // Tells that the run ends.
    fn quit(alloc: Global) -> Result<Reply, NoMemory>
        ensures answers { IfOk result (λ r. (line : ℕ) (s : Session) (j : Log) → Answers (Quits line) s s j j r) }
        ensures quits { IfOk result (λ r. r.quit ≡ true) }
    {
        Ok(Reply {
            lines: TextBytes::new(reply_line(alloc, &ReplyKind::Quit)?),
            refused: false,
            quit: true,
        })
    }

    /// Verifies the first segments that aren't settled, at most so many, in turns of the book, for a session that was charged for it: 1, and 2 for each
    /// pass that may be made. Each segment is verified outside of the turns. Each pass makes at least one link more lead, whatever workers do between;
    /// with a pass for each link the answer is settled. The session's world stays. Where memory runs out, the passes that were made stand.
    pub fn settle<R: Wait, G: Gate>(
        &self,
        rt: &R,
        alloc: Global,
        turn: &Turn<Book<Design>>,
        pass: &mut SessionPass<Book<Design>>,
        gate: &G,
        passes: u32,
    ) -> Result<SettleAnswer, NoMemory>
        requires turn { IsOf turn.now pass.old true }
        requires at { StandsAt self.now (known pass.old) }
        requires opened { is_some (world_in self.now (log_of (known pass.old))).design ≡ true }
        requires charged { (counts_of (log_of (known pass.old))).session + (2 * min passes (links_in (book_in (log_of (known pass.old)))) + 1)
            ≤ (world_in self.now (log_of (known pass.old))).charge }
        ensures answer { IfOk result (λ a. HasSettledBeside kit (known pass.old) (known pass.new) passes (settled_up_to a)) }
        ensures tried { OnErr result (HasTriedBeside (known pass.old) (known pass.new) (min passes (links_in (book_in (log_of (known pass.old)))))) }
        ensures turn { IsOf turn.now pass.new true }
        ensures at { StandsAt self.now (known pass.new) }
        ensures goes { GoesOn (known pass.old) (known pass.new) }
    {
        let shown = settle(rt, alloc, turn, pass, gate, passes)?;
        Ok(settle_answer(shown))
    }

    // The reply to a settle that was answered so.
    fn settle_reply(&self, alloc: Global, answer: SettleAnswer) -> Result<Reply, NoMemory>
        ensures { IfOk result (λ r. (grid : List ℕ) → Accepts (settle_text (world self.now grid) (settled_up_to answer)) r) }
    {
        let (cycle, version) = match &self.running {
            Some(running) => (running.record_.len(), running.version.number),
            None => (0, 0),
        };
        let kind = match answer {
            SettleAnswer::Settled => ReplyKind::Settled { cycle, version },
            SettleAnswer::Unsettled { settled_to } => ReplyKind::Unsettled { settled_to },
        };
        Ok(Reply::accepted(reply_line(alloc, &kind)?))
    }

    // Verifies segments, as many as passes are said, or all: 62 without a design, 68 where the session's room is too small.
    fn settle_command<R: Wait, G: Gate>(
        &mut self,
        rt: &R,
        alloc: Global,
        turn: &Turn<Book<Design>>,
        pass: &mut SessionPass<Book<Design>>,
        gate: &G,
        line: u64,
        passes: Option<u32>,
    ) -> Result<Reply, NoMemory>
        requires turn { IsOf turn.now pass.old true }
        requires at { StandsAt self.old (known pass.old) }
        ensures steps { IfOk result (λ r. (answers : Option (List ShelfAnswer)) (faults : ℕ) → StepsTo (known pass.old).alone (Ok (Settles line passes))
            answers answers faults faults self.old self.new (log_of (known pass.old)) (log_of (known pass.new)) r.lines r.refused) }
        ensures goes_on { IfOk result (λ r. r.quit ≡ false) }
        ensures stops { OnErr result ((answers : Option (List ShelfAnswer)) (faults : ℕ) → Stops (known pass.old).alone (Ok (Settles line passes))
            answers answers faults faults self.old self.new (log_of (known pass.old)) (log_of (known pass.new))) }
        ensures turn { IsOf turn.now pass.new true }
        ensures at { StandsAt self.new (known pass.new) }
        ensures goes { GoesOn (known pass.old) (known pass.new) }
        ensures limits { limits_of self.new ≡ limits_of self.old }
        ensures grows { Grows (names_of self.old) (names_of self.new) }
    {
        has_each_once(&self.names);
        let charged = match &mut self.running {
            Some(running) => {
                let links = links(rt, turn, pass);
                running.charge_settle(self.limits, links, passes)
            }
            None => return refused_line(alloc, &self.names, 62, line),
        };
        match charged {
            Some(most) => {
                let answer = self.settle(rt, alloc, turn, pass, gate, most)?;
                self.settle_reply(alloc, answer)
            }
            None => refused_line(alloc, &self.names, 68, line),
        }
    }

    // Carries out a command that isn't a settle, whose steps are counted by a counter of its own.
    fn carry_out<R: Threads + Sync, L: Ledger, F: Shelf>(
        &mut self,
        rt: &R,
        alloc: Global,
        book: &mut Book<Design>,
        shelf: &mut F,
        command: Command,
        blank: Blank,
    ) -> Result<Reply, NoMemory>
        requires name { blank.name ≡ L.name }
        requires parts { blank.parts ≡ L.parts }
        requires some { 0 < blank.parts }
        requires within { IsCommandWithin (length (names_of self.old)) command }
        requires formed { IsFormed (spoken (names_of self.old) command) }
        requires plain { is_settle (Ok (spoken (names_of self.old) command)) ≡ false }
        requires beside { StandsBeside self.old book.old }
        ensures steps { IfOk result (λ r. StepsTo true (Ok (spoken (names_of self.old) command)) (F.answers shelf.old) (F.answers shelf.new)
            (F.faults shelf.old) (F.faults shelf.new) self.old self.new book.old book.new r.lines r.refused) }
        ensures quits { IfOk result (λ r. r.quit ≡ is_quit (Ok (spoken (names_of self.old) command))) }
        ensures stops { OnErr result (StopsInTurn (Ok (spoken (names_of self.old) command)) (F.answers shelf.old) (F.answers shelf.new)
            (F.faults shelf.old) (F.faults shelf.new) self.old self.new book.old book.new) }
        ensures lost { OnErr result (LosesAnswers self.old (spoken (names_of self.old) command) (F.answers shelf.old) (F.answers shelf.new)) }
        ensures cause { OnErr result ((F.faults shelf.new ≡ F.faults shelf.old) ⊎ Rose (F.faults shelf.old) (F.faults shelf.new)) }
        ensures beside { StandsBeside self.new book.new }
        ensures limits { limits_of self.new ≡ limits_of self.old }
        ensures grows { Grows (names_of self.old) (names_of self.new) }
    {
        let mut steps = Steps::<L>::start(blank);
        match command {
            Command::Edit(edit) => self.edit(rt, alloc, book, shelf, &edit, &mut steps),
            Command::Set { line, values } => self.set(alloc, book, line, values.as_slice()),
            Command::Run { line, n } => self.run(alloc, book, line, n, &mut steps),
            Command::Show { line, prefix } => self.show(alloc, book, line, prefix.bytes()),
            Command::Settle { .. } => unreachable!(),
            Command::Status { .. } => self.status(alloc, book),
            Command::Quit { .. } => Self::quit(alloc),
        }
    }

    // The same with a fresh counter.
    fn step_beside<R: Threads + Sync, F: Shelf>(
        &mut self,
        rt: &R,
        alloc: Global,
        book: &mut Book<Design>,
        shelf: &mut F,
        command: Command,
    ) -> Result<Reply, NoMemory>
        requires within { IsCommandWithin (length (names_of self.old)) command }
        requires formed { IsFormed (spoken (names_of self.old) command) }
        requires plain { is_settle (Ok (spoken (names_of self.old) command)) ≡ false }
        requires beside { StandsBeside self.old book.old }
        ensures steps { IfOk result (λ r. StepsTo true (Ok (spoken (names_of self.old) command)) (F.answers shelf.old) (F.answers shelf.new)
            (F.faults shelf.old) (F.faults shelf.new) self.old self.new book.old book.new r.lines r.refused) }
        ensures quits { IfOk result (λ r. r.quit ≡ is_quit (Ok (spoken (names_of self.old) command))) }
        ensures stops { OnErr result (StopsInTurn (Ok (spoken (names_of self.old) command)) (F.answers shelf.old) (F.answers shelf.new)
            (F.faults shelf.old) (F.faults shelf.new) self.old self.new book.old book.new) }
        ensures lost { OnErr result (LosesAnswers self.old (spoken (names_of self.old) command) (F.answers shelf.old) (F.answers shelf.new)) }
        ensures cause { OnErr result ((F.faults shelf.new ≡ F.faults shelf.old) ⊎ Rose (F.faults shelf.old) (F.faults shelf.new)) }
        ensures beside { StandsBeside self.new book.new }
        ensures limits { limits_of self.new ≡ limits_of self.old }
        ensures grows { Grows (names_of self.old) (names_of self.new) }
    {
        self.carry_out::<R, Brand, F>(rt, alloc, book, shelf, command, Blank::new(1))
    }

    // The same in one turn of the book.
    #[tactic(auto, using(cycle_eval::proofs::DesignsShared::design_send, cycle_eval::proofs::DesignsShared::design_sync))]
    fn step_in_turn<R: Threads + Wait + Sync, F: Shelf>(
        &mut self,
        rt: &R,
        alloc: Global,
        turn: &Turn<Book<Design>>,
        pass: &mut SessionPass<Book<Design>>,
        shelf: &mut F,
        command: Command,
    ) -> Result<Reply, NoMemory>
        requires within { IsCommandWithin (length (names_of self.old)) command }
        requires formed { IsFormed (spoken (names_of self.old) command) }
        requires plain { is_settle (Ok (spoken (names_of self.old) command)) ≡ false }
        requires turn { IsOf turn.now pass.old true }
        requires at { StandsAt self.old (known pass.old) }
        ensures steps { IfOk result (λ r. StepsTo (known pass.old).alone (Ok (spoken (names_of self.old) command)) (F.answers shelf.old) (F.answers shelf.new)
            (F.faults shelf.old) (F.faults shelf.new) self.old self.new (log_of (known pass.old)) (log_of (known pass.new)) r.lines r.refused) }
        ensures quits { IfOk result (λ r. r.quit ≡ is_quit (Ok (spoken (names_of self.old) command))) }
        ensures stops { OnErr result (Stops (known pass.old).alone (Ok (spoken (names_of self.old) command)) (F.answers shelf.old) (F.answers shelf.new)
            (F.faults shelf.old) (F.faults shelf.new) self.old self.new (log_of (known pass.old)) (log_of (known pass.new))) }
        ensures lost { OnErr result (LosesAnswers self.old (spoken (names_of self.old) command) (F.answers shelf.old) (F.answers shelf.new)) }
        ensures cause { OnErr result ((F.faults shelf.new ≡ F.faults shelf.old) ⊎ Rose (F.faults shelf.old) (F.faults shelf.new)) }
        ensures turn { IsOf turn.now pass.new true }
        ensures at { StandsAt self.new (known pass.new) }
        ensures goes { GoesOn (known pass.old) (known pass.new) }
        ensures limits { limits_of self.new ≡ limits_of self.old }
        ensures grows { Grows (names_of self.old) (names_of self.new) }
    {
        let mut boxed = turn.enter(rt, pass);
        let book: &mut Book<Design> = &mut boxed;
        book.legal();
        let reply = self.step_beside(rt, alloc, book, shelf, command);
        book.legal();
        turn.leave(rt, pass, boxed);
        reply
    }

    /// Carries out a command in turns of the session's book, and answers it: a settle in several, every other command in one. A refused command changes
    /// nothing but the shelf's answers and count, the table of names, and what the pass has seen of workers' entries. Where memory runs out, session and
    /// book are as before but for such entries, or as behind the command with its lines lost; of a settle its charge and the passes that it made may
    /// stand.
    pub fn step<R: Threads + Wait + Sync, F: Shelf, G: Gate>(
        &mut self,
        rt: &R,
        alloc: Global,
        turn: &Turn<Book<Design>>,
        pass: &mut SessionPass<Book<Design>>,
        shelf: &mut F,
        gate: &G,
        command: Command,
    ) -> Result<Reply, NoMemory>
        requires within { IsCommandWithin (length (names_of self.old)) command }
        requires formed { IsFormed (spoken (names_of self.old) command) }
        requires turn { IsOf turn.now pass.old true }
        requires at { StandsAt self.old (known pass.old) }
        ensures steps { IfOk result (λ r. StepsTo (known pass.old).alone (Ok (spoken (names_of self.old) command)) (F.answers shelf.old) (F.answers shelf.new)
            (F.faults shelf.old) (F.faults shelf.new) self.old self.new (log_of (known pass.old)) (log_of (known pass.new)) r.lines r.refused) }
        ensures quits { IfOk result (λ r. r.quit ≡ is_quit (Ok (spoken (names_of self.old) command))) }
        ensures stops { OnErr result (Stops (known pass.old).alone (Ok (spoken (names_of self.old) command)) (F.answers shelf.old) (F.answers shelf.new)
            (F.faults shelf.old) (F.faults shelf.new) self.old self.new (log_of (known pass.old)) (log_of (known pass.new))) }
        ensures lost { OnErr result (LosesAnswers self.old (spoken (names_of self.old) command) (F.answers shelf.old) (F.answers shelf.new)) }
        ensures cause { OnErr result ((F.faults shelf.new ≡ F.faults shelf.old) ⊎ Rose (F.faults shelf.old) (F.faults shelf.new)) }
        ensures turn { IsOf turn.now pass.new true }
        ensures at { StandsAt self.new (known pass.new) }
        ensures goes { GoesOn (known pass.old) (known pass.new) }
        ensures limits { limits_of self.new ≡ limits_of self.old }
        ensures grows { Grows (names_of self.old) (names_of self.new) }
    {
        match command {
            Command::Settle { line, passes } => {
                self.settle_command(rt, alloc, turn, pass, gate, line, passes)
            }
            command => self.step_in_turn(rt, alloc, turn, pass, shelf, command),
        }
    }
}
