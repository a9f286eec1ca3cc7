// Finding the next command among the bytes that a reader holds and reads.
ghost use Rattle.std.specs.Prelude.{◌≡◌, ◌⊎◌, ◌+◌, ◌-◌, ◌<◌, ◌≤◌, ◌++◌, ℕ, List, [], length, take, drop, Bool, true, false, IfSome, IfNone, OnSome, None, Some, not, codes, if◌then◌else◌};
ghost use Rattle.std.specs.Str.{bytes_eq};
ghost use Rattle.command_read.specs.Lines.{script_lines, words, is_skipped, begin_with};
ghost use Rattle.command_read.specs.LineEnds.{IsLineAt, line_length};
ghost use Rattle.command_read.specs.Scripts.{Within};
ghost use Rattle.command_read.specs.Readers.{left, still_of, next_number, has_ended, count_taken, stopped, asked_of, IsSoon, IsSoonAt, Takes, HandsOut};
ghost use Rattle.command_read.specs.Found.{IsEndOf, IsAtFront};
ghost use Rattle.command_read.specs.declared.stop.Stop.TheVariants.{End};
ghost use Rattle.command_read.specs.Scanned.{Scanned};

use crate::item::Item;
use crate::line_end::LineEnd;
use crate::lines::without_return;
use crate::reader::Reader;
use crate::scan::{begins_with, is_just, is_skipped};
use ls_port::Source;
use ls_text::line_len;

impl Reader {
    /// The bytes that aren't handed out.
    pub(crate) fn left(&self) -> &[u8]
        ensures { result.now ≡ left self.now }
    {
        self.held.split_at(self.at).1
    }

    /// Hands so many bytes out, which are so many lines.
    pub(crate) fn pass(&mut self, bytes: usize, lines: u64)
        requires within { bytes ≤ length (left self.old) }
        requires lines { lines ≤ bytes }
        ensures held { left self.new ≡ drop bytes (left self.old) }
        ensures number { next_number self.new ≡ next_number self.old + lines }
        ensures taken { count_taken self.new ≡ count_taken self.old }
        ensures ended { has_ended self.new ≡ has_ended self.old }
        ensures stop { stopped self.new ≡ stopped self.old }
    {
        self.at += bytes;
        self.number += lines;
    }

    // Where the first newline stands from a place on, or the end of what is held. Up to `seen` there is none.
    fn newline_from(&self, from: usize, seen: usize) -> usize
        requires low { from ≤ seen }
        requires high { seen ≤ length (left self.now) }
        requires none { seen - from ≤ line_length (drop from (left self.now)) }
        ensures value { result ≡ from + line_length (drop from (left self.now)) }
        ensures within { result ≤ length (left self.now) }
    {
        seen + line_len(self.left().split_at(seen).1)
    }

    // The line from there up to a newline.
    fn line_to(&self, from: usize, newline: usize) -> LineEnd
        requires place { newline ≡ from + line_length (drop from (left self.now)) }
        requires within { newline < length (left self.now) }
        ensures { IsEndOf self.now from result }
    {
        let line = without_return(&self.left()[from..newline]);
        LineEnd {
            end: from + line.len(),
            next: newline + 1,
        }
    }

    // The last line, which no newline ends.
    fn last_line(&self, from: usize, end: usize) -> Option<LineEnd>
        requires place { end ≡ from + line_length (drop from (left self.now)) }
        requires all { end ≡ length (left self.now) }
        requires ended { has_ended self.now ≡ true }
        ensures found { IfSome result (IsEndOf self.now from) }
        ensures none { IfNone result (script_lines true (drop from (left self.now)) ≡ []) }
    {
        if from < end {
            Some(LineEnd { end, next: end })
        } else {
            None
        }
    }

    // The line that begins there, as soon as it is complete. None where the input ends there, or the reader stops.
    fn line_at<S: Source>(&mut self, source: &mut S, from: usize) -> Option<LineEnd>
        requires going { stopped self.old ≡ None }
        requires within { from ≤ length (left self.old) }
        ensures takes { (came : List ℕ) × (kept : List ℕ)
            × Takes (S.left source.old) (S.left source.new) (S.faults source.old) (S.faults source.new) self.old self.new came kept
            × (left self.new ≡ left self.old ++ kept) × IsSoonAt from self.old came }
        ensures number { next_number self.new ≡ next_number self.old }
        ensures found { IfSome result (IsEndOf self.new from) }
        ensures going { OnSome result (stopped self.new ≡ None) }
        ensures none { IfNone result (script_lines (has_ended self.new) (drop from (left self.new)) ≡ []) }
        ensures ends { IfNone result (stopped self.new ≡ None → has_ended self.new ≡ true) }
        ensures open { (stopped self.new ≡ None → ⊥) → has_ended self.new ≡ false }
        ensures not_end { stopped self.new ≡ Some End → ⊥ }
        ensures unread { ((source.new ≡ source.old) × (left self.new ≡ left self.old) × (has_ended self.new ≡ has_ended self.old))
            ⊎ ((has_ended self.old ≡ false) × (script_lines false (drop from (left self.old)) ≡ [])) }
    {
        let mut seen = from;
        while self.stop.is_none() {
            let end = self.newline_from(from, seen);
            if end < self.left().len() {
                return Some(self.line_to(from, end));
            }
            if self.ended {
                return self.last_line(from, end);
            }
            seen = end;
            self.fill(source);
        }
        None
    }

    // The first line that isn't skipped, which then stands at the front.
    fn first_line<S: Source>(&mut self, source: &mut S) -> Option<LineEnd>
        requires going { stopped self.old ≡ None }
        ensures goes { (came : List ℕ) × (kept : List ℕ)
            × Takes (S.left source.old) (S.left source.new) (S.faults source.old) (S.faults source.new) self.old self.new came kept
            × HandsOut self.old self.new [] kept × IsSoon self.old came }
        ensures still { still_of self.new ≤ still_of self.old }
        ensures found { IfSome result (IsEndOf self.new 0) }
        ensures told { IfSome result (λ f. is_skipped (words (take f.end (left self.new))) ≡ false) }
        ensures going { OnSome result (stopped self.new ≡ None) }
        ensures none { IfNone result (asked_of self.new [] (has_ended self.new) ≡ []) }
        ensures ends { IfNone result (stopped self.new ≡ None → has_ended self.new ≡ true) }
        ensures not_end { stopped self.new ≡ Some End → ⊥ }
        ensures unread { ((source.new ≡ source.old) × (has_ended self.new ≡ has_ended self.old)
            × (has_ended self.old ≡ false → asked_of self.new [] false ≡ asked_of self.old [] false))
            ⊎ ((has_ended self.old ≡ false) × (asked_of self.old [] false ≡ [])) }
    {
        while let Some(found) = self.line_at(source, 0) {
            if !is_skipped(self.left().split_at(found.end).0) {
                return Some(found);
            }
            self.pass(found.next, 1);
        }
        None
    }

    // The block whose lines begin there, behind the line of `edit`. None where the reader stops.
    fn block<S: Source>(&mut self, source: &mut S, body: usize) -> Option<Item>
        requires going { stopped self.old ≡ None }
        requires within { body ≤ length (left self.old) }
        requires some { 0 < body }
        requires begun { Scanned (has_ended self.old) (next_number self.old) (left self.old) (Within (next_number self.old) [] false) (next_number self.old + 1) body }
        ensures takes { (came : List ℕ) × (kept : List ℕ)
            × Takes (S.left source.old) (S.left source.new) (S.faults source.old) (S.faults source.new) self.old self.new came kept
            × (left self.new ≡ left self.old ++ kept) × IsSoon self.old came }
        ensures number { next_number self.new ≡ next_number self.old }
        ensures found { IfSome result (IsAtFront self.new) }
        ensures going { OnSome result (stopped self.new ≡ None) }
        ensures none { IfNone result (asked_of self.new [] (has_ended self.new) ≡ []) }
        ensures halted { IfNone result (stopped self.new ≡ None → ⊥) }
        ensures not_end { stopped self.new ≡ Some End → ⊥ }
        ensures unread { (source.new ≡ source.old) ⊎ ((has_ended self.old ≡ false) × (asked_of self.old [] false ≡ [])) }
    {
        let mut from = body;
        let mut lines = 1;
        let mut in_text = false;
        while let Some(found) = self.line_at(source, from) {
            let line = &self.left()[from..found.end];
            if !in_text && is_just(b"end", line) {
                return Some(Item::Block {
                    body,
                    end: from,
                    next: found.next,
                    lines: lines + 1,
                });
            }
            if found.next == found.end {
                return Some(Item::Open);
            }
            in_text = is_in_text(in_text, line);
            from = found.next;
            lines += 1;
        }
        if self.stop.is_none() {
            Some(Item::Open)
        } else {
            None
        }
    }

    /// What is complete first. None at the input's end, or where the reader stops.
    pub(crate) fn item<S: Source>(&mut self, source: &mut S) -> Option<Item>
        requires going { stopped self.old ≡ None }
        ensures goes { (came : List ℕ) × (kept : List ℕ)
            × Takes (S.left source.old) (S.left source.new) (S.faults source.old) (S.faults source.new) self.old self.new came kept
            × HandsOut self.old self.new [] kept × IsSoon self.old came }
        ensures still { still_of self.new ≤ still_of self.old }
        ensures found { IfSome result (IsAtFront self.new) }
        ensures going { OnSome result (stopped self.new ≡ None) }
        ensures none { IfNone result (asked_of self.new [] (has_ended self.new) ≡ []) }
        ensures ends { IfNone result (stopped self.new ≡ None → has_ended self.new ≡ true) }
        ensures not_end { stopped self.new ≡ Some End → ⊥ }
        ensures unread { (source.new ≡ source.old) ⊎ ((has_ended self.old ≡ false) × (asked_of self.old [] false ≡ [])) }
    {
        let LineEnd { end, next } = self.first_line(source)?;
        if is_just(b"edit", self.left().split_at(end).0) {
            self.block(source, next)
        } else {
            Some(Item::Line { end, next })
        }
    }
}

// Whether the line behind a line of a block stands in a text.
fn is_in_text(in_text: bool, line: &[u8]) -> bool
    ensures { result ≡ (if in_text then not (bytes_eq line.now (codes ".")) else begin_with (codes "file") (words line.now)) }
{
    if in_text {
        line != b".".as_slice()
    } else {
        begins_with(b"file", line)
    }
}
