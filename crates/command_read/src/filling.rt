// Reading bytes of a source.
ghost use Rattle.std.specs.Prelude.{◌≡◌, ◌+◌, ◌-◌, ◌<◌, ◌≤◌, ◌++◌, min, nat_lt, if◌then◌else◌, ℕ, List, [], false, length, take, vec_len, IfOk, None, Some};
ghost use Rattle.std.specs.Io.KnownBytes.{ReadConsumes};
ghost use Rattle.ls_port.specs.Causes.{HasCause};
ghost use Rattle.command_read.specs.Readers.{left, next_number, has_ended, count_taken, stopped, AreKept, Takes};
ghost use Rattle.command_read.specs.declared.stop.Stop.TheVariants.{End};

use crate::reader::Reader;
use crate::stop::Stop;
use ls_port::{Failed, Source};

/// The most bytes that a script has.
const MAX_INPUT: u64 = 67_108_864;

/// The most bytes that one read asks for.
const PIECE: u64 = 65_536;

// How many bytes the next read asks for, after so many: the one byte too many is asked for by itself.
fn room_after(taken: u64) -> usize
    requires { taken ≤ 67108864 }
    ensures value { result ≡ (if nat_lt taken 67108864 then min 65536 (67108864 - taken) else 1) }
    ensures some { 0 < result }
    ensures piece { result ≤ 65536 }
    ensures few { taken + result ≤ 67108865 }
{
    if taken < MAX_INPUT {
        PIECE.min(MAX_INPUT - taken) as usize
    } else {
        1
    }
}

// Reads at most so many bytes into the front of a buffer.
fn read_front<S: Source>(source: &mut S, buf: &mut [u8], room: usize) -> Result<usize, Failed>
    requires some { 0 < room }
    requires room { room ≤ length buf.old }
    ensures bound { IfOk result (λ n. n ≤ room) }
    ensures bytes { ReadConsumes (S.left source.old) (S.left source.new) result buf.new }
    ensures cause { HasCause (S.faults source.old) (S.faults source.new) result }
{
    source.read(&mut buf[..room])
}

// The same into a piece.
fn read_piece<S: Source>(source: &mut S, piece: &mut Vec<u8>, room: usize) -> Result<usize, Failed>
    requires some { 0 < room }
    requires room { room ≤ vec_len piece.old }
    ensures bound { IfOk result (λ n. n ≤ room) }
    ensures bytes { ReadConsumes (S.left source.old) (S.left source.new) result piece.new.items }
    ensures len { vec_len piece.new ≡ vec_len piece.old }
    ensures cause { HasCause (S.faults source.old) (S.faults source.new) result }
{
    read_front(source, piece, room)
}

impl Reader {
    // Moves what is held to the front.
    fn compact(&mut self)
        ensures held { left self.new ≡ left self.old }
        ensures number { next_number self.new ≡ next_number self.old }
        ensures taken { count_taken self.new ≡ count_taken self.old }
        ensures ended { has_ended self.new ≡ has_ended self.old }
        ensures stop { stopped self.new ≡ stopped self.old }
    {
        if self.at > 0 {
            let kept = self.held.len() - self.at;
            self.held.copy_within(self.at.., 0);
            self.held.truncate(kept);
            self.at = 0;
        }
    }

    // Takes so many bytes of the last read.
    fn keep(&mut self, count: usize)
        requires going { stopped self.old ≡ None }
        requires piece { count ≤ 65536 }
        requires one { 67108864 < count_taken self.old + count → count ≡ 1 }
        requires few { count_taken self.old + count ≤ 67108865 }
        ensures kept { (kept : List ℕ) × (left self.new ≡ left self.old ++ kept) × AreKept (stopped self.new) (take count self.old.piece.items) kept
            × ((stopped self.new ≡ None → ⊥) → kept ≡ []) }
        ensures taken { count_taken self.new ≡ count_taken self.old + count }
        ensures number { next_number self.new ≡ next_number self.old }
        ensures ended { has_ended self.new ≡ has_ended self.old }
        ensures unfailed { stopped self.new ≡ Some Stop.Fault → ⊥ }
        ensures not_end { stopped self.new ≡ Some End → ⊥ }
    {
        self.taken += count as u64;
        if self.taken > MAX_INPUT {
            self.stop = Some(Stop::TooMuch);
        } else if self.held.extend_from_slice(&self.piece[..count]).is_err() {
            self.stop = Some(Stop::NoMemory);
        }
    }

    /// One read: it takes some bytes or sees the input's end, or else stops the reader.
    pub(crate) fn fill<S: Source>(&mut self, source: &mut S)
        requires going { stopped self.old ≡ None }
        requires more { has_ended self.old ≡ false }
        ensures takes { (came : List ℕ) × (kept : List ℕ)
            × Takes (S.left source.old) (S.left source.new) (S.faults source.old) (S.faults source.new) self.old self.new came kept
            × (left self.new ≡ left self.old ++ kept) × ((stopped self.new ≡ None → ⊥) → kept ≡ []) × (length came ≤ 65536) }
        ensures number { next_number self.new ≡ next_number self.old }
        ensures progress { stopped self.new ≡ None → has_ended self.new ≡ false → count_taken self.old < count_taken self.new }
        ensures open { (stopped self.new ≡ None → ⊥) → has_ended self.new ≡ false }
        ensures not_end { stopped self.new ≡ Some End → ⊥ }
    {
        self.compact();
        let room = room_after(self.taken);
        match read_piece(source, &mut self.piece, room) {
            Ok(0) => self.ended = true,
            Ok(count) => self.keep(count),
            Err(_) => self.stop = Some(Stop::Fault),
        }
    }
}
