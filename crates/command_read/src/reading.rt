// Reading commands.
ghost use Rattle.std.specs.Prelude.{◌≡◌, ◌⊎◌, ◌∷◌, ◌<◌, ℕ, List, [], length, nat_lt, true, false, None, Some, IfOk, IfErr, if◌then◌else◌, is_some, ◌≤◌};
ghost use Rattle.ls_text.specs.Texts.{Grows};
ghost use Rattle.ls_text.specs.Readings.{CanShow, Gives};
ghost use Rattle.command_read.specs.Spoken.{spoken, IsCommandWithin};
ghost use Rattle.command_read.specs.Sound.{is_too_much};
ghost use Rattle.command_read.specs.Readers.{left, still_of, next_number, has_ended, count_taken, stopped, asked_of, IsSoon, Takes, HandsOut, told, stop_of, end_of, IsReadEndWithin};
ghost use Rattle.command_read.specs.Found.{IsAtFront, item_asked};
ghost use Rattle.command_read.specs.declared.stop.Stop.TheVariants.{End, NoMemory as OutOfMemory};

use crate::drafts::read_block;
use crate::faults::wordless;
use crate::item::Item;
use crate::line_commands::read_line;
use crate::reader::Reader;
use crate::stop::Stop;
use crate::{Command, ReadEnd};
use ls_port::Source;
use ls_text::{Names, NoMemory, Refusal};
use std::alloc::Global;

/// How many bytes one read asks for at most.
const PIECE: usize = 65_536;

// What a stopped reader answers.
fn end_of(stop: Stop) -> ReadEnd
    ensures { result ≡ end_of stop }
{
    match stop {
        Stop::End => ReadEnd::End,
        Stop::Fault => ReadEnd::Fault,
        Stop::TooMuch => ReadEnd::TooMuch,
        Stop::NoMemory => ReadEnd::NoMemory,
    }
}

impl Reader {
    /// A reader that has taken nothing. It takes memory for one read.
    pub fn new(alloc: Global) -> Result<Reader, NoMemory>
        ensures left { IfOk result (λ r. left r ≡ []) }
        ensures number { IfOk result (λ r. next_number r ≡ 1) }
        ensures taken { IfOk result (λ r. count_taken r ≡ 0) }
        ensures ended { IfOk result (λ r. has_ended r ≡ false) }
        ensures stop { IfOk result (λ r. stopped r ≡ None) }
    {
        Ok(Reader {
            alloc,
            piece: vec![in alloc; 0; PIECE]?,
            held: Vec::new(alloc),
            at: 0,
            number: 1,
            taken: 0,
            ended: false,
            stop: None,
        })
    }

    /// How many bytes were taken of the source, at most 67,108,865.
    pub fn taken(&self) -> u64
        ensures { result ≡ count_taken self.now }
    {
        self.taken
    }

    // Reads what stands at the front.
    fn read(&self, names: &mut Names, item: Item) -> Result<Command, Refusal>
        requires { IsAtFront self.now item }
        ensures gives { Gives names.new (spoken names.new) result (item_asked self.now item) }
        ensures within { IfOk result (IsCommandWithin (length names.new)) }
        ensures named { IfErr result (CanShow (length names.new)) }
        ensures grows { Grows names.old names.new }
    {
        let left = self.left();
        match item {
            Item::Line { end, .. } => read_line(
                self.alloc,
                names,
                self.number,
                left.split_at(end).0,
            ),
            Item::Block { body, end, .. } => {
                read_block(self.alloc, names, self.number, &left[body..end])
            }
            Item::Open => Err(Refusal::Fault(wordless(self.alloc, 66, self.number))),
        }
    }

    // Hands out what stands at the front.
    fn hand_out(&mut self, item: Item)
        requires { IsAtFront self.old item }
        ensures hands { HandsOut self.old self.new (item_asked self.old item ∷ []) [] }
        ensures still { still_of self.new < still_of self.old }
        ensures taken { count_taken self.new ≡ count_taken self.old }
        ensures ended { has_ended self.new ≡ has_ended self.old }
        ensures stop { stopped self.new ≡ stopped self.old }
    {
        match item {
            Item::Line { next, .. } => self.pass(next, 1),
            Item::Block { next, lines, .. } => self.pass(next, lines),
            Item::Open => {
                let rest = self.left().len();
                self.pass(rest, 0);
            }
        }
    }

    // Reads what stands at the front and hands it out; where memory runs out it stays.
    fn answer(&mut self, names: &mut Names, item: Item) -> ReadEnd
        requires front { IsAtFront self.old item }
        requires going { stopped self.old ≡ None }
        requires few { count_taken self.old ≤ 67108864 }
        ensures hands { HandsOut self.old self.new (told names.new result) [] }
        ensures taken { count_taken self.new ≡ count_taken self.old }
        ensures ended { has_ended self.new ≡ has_ended self.old }
        ensures stop { stopped self.new ≡ stop_of result }
        ensures still { stop_of result ≡ None → still_of self.new < still_of self.old }
        ensures memory { (stopped self.new ≡ None) ⊎ (stopped self.new ≡ Some OutOfMemory) }
        ensures within { IsReadEndWithin (length names.new) result }
        ensures grows { Grows names.old names.new }
    {
        match self.read(names, item) {
            Ok(command) => {
                self.hand_out(item);
                ReadEnd::Command(command)
            }
            Err(Refusal::Fault(fault)) => {
                self.hand_out(item);
                ReadEnd::Refused(fault)
            }
            Err(Refusal::NoMemory) => {
                self.stop = Some(Stop::NoMemory);
                ReadEnd::NoMemory
            }
        }
    }

    /// The next command of the source, or the next line that is refused, as soon as its last line is complete: then nothing more is read.
    ///
    /// A read asks for 65,536 bytes, or for those up to the 67,108,864th where these are fewer; where that one is taken and nothing is left
    /// to hand out, for one byte more, which belongs to no command. After `End`, `Fault`, `TooMuch` and `NoMemory` it answers the same
    /// again.
    pub fn read_command<S: Source>(&mut self, names: &mut Names, source: &mut S) -> ReadEnd
        // What was asked for is what is told, and then what is still asked for, whatever comes behind; and once that was complete nothing
        // more was read.
        ensures goes { stopped self.old ≡ None → (came : List ℕ) × (kept : List ℕ)
            × Takes (S.left source.old) (S.left source.new) (S.faults source.old) (S.faults source.new) self.old self.new came kept
            × HandsOut self.old self.new (told names.new result) kept × IsSoon self.old came }

        // Why it stopped, and that nothing was left to hand out then; where memory ran out that isn't said.
        ensures stop { stopped self.new ≡ stop_of result }
        ensures nothing { stopped self.old ≡ None → (stopped self.new ≡ None → ⊥) → (stopped self.new ≡ Some OutOfMemory → ⊥)
            → asked_of self.new [] (has_ended self.new) ≡ [] }
        ensures end { stopped self.old ≡ None → stopped self.new ≡ Some End → has_ended self.new ≡ true }
        // What it may hand out yet falls with each that it tells.
        ensures still { stop_of result ≡ None → still_of self.new < still_of self.old }

        ensures much { is_too_much (stopped self.new) ≡ nat_lt 67108864 (count_taken self.new) }

        // Nothing is read where something is left to hand out, or the input has ended.
        ensures unread { stopped self.old ≡ None → (source.new ≡ source.old) ⊎ ((has_ended self.old ≡ false) × (asked_of self.old [] false ≡ [])) }

        // A stopped reader answers the same again.
        ensures again { (stop : Stop) → stopped self.old ≡ Some stop
            → (result ≡ end_of stop) × (self.new ≡ self.old) × (source.new ≡ source.old) × (names.new ≡ names.old) }

        // The table only grows, and all names that are told are its.
        ensures within { IsReadEndWithin (length names.new) result }
        ensures grows { Grows names.old names.new }
    {
        if let Some(stop) = self.stop {
            return end_of(stop);
        }
        match self.item(source) {
            Some(item) => self.answer(names, item),
            None => self.halt(),
        }
    }

    // Where nothing is left to hand out, the reader has stopped, or the input has ended.
    fn halt(&mut self) -> ReadEnd
        requires not_end { stopped self.old ≡ Some End → ⊥ }
        ensures result { stop_of result ≡ stopped self.new }
        ensures told { told [] result ≡ [] }
        ensures stop { stopped self.new ≡ (if is_some (stopped self.old) then stopped self.old else Some End) }
        ensures left { left self.new ≡ left self.old }
        ensures number { next_number self.new ≡ next_number self.old }
        ensures taken { count_taken self.new ≡ count_taken self.old }
        ensures ended { has_ended self.new ≡ has_ended self.old }
    {
        let stop = self.stop.unwrap_or(Stop::End);
        self.stop = Some(stop);
        end_of(stop)
    }
}
