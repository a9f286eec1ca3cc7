// Whether steps may be walked over.
ghost use Rattle.std.specs.Prelude.{◌≡◌, ◌≤◌};
ghost use Rattle.word_steps.specs.Walks.{writes};
ghost use Rattle.word_steps.specs.Sound.{is_long, lies_in, has_room, is_sized, is_placed, is_sound, are_sound};

use crate::op::Op;
use crate::step::Step;

/// Whether a step writes a word; the others pass over steps.
pub fn writes(op: Op) -> bool
    ensures { result ≡ writes op }
{
    match op {
        Op::SkipIfZero
        | Op::SkipIfEqual
        | Op::SkipUnlessEqual
        | Op::SkipUnlessLess
        | Op::SkipIfLess
        | Op::SkipUnlessSignedLess
        | Op::SkipIfSignedLess
        | Op::Skip => false,
        _ => true,
    }
}

/// Whether an operator takes words of 128 bits alone.
pub fn is_long(op: Op) -> bool
    ensures { result ≡ is_long op }
{
    match op {
        Op::Xnor
        | Op::Quotient
        | Op::Remainder
        | Op::SignedQuotient
        | Op::SignedRemainder
        | Op::SignedLess
        | Op::SignedAtMost
        | Op::Arithmetic
        | Op::Locate
        | Op::SignedLocate
        | Op::Pick
        | Op::PlaceAt => true,
        _ => false,
    }
}

// Whether the bits that a step names lie in a word of so many bits.
fn lies_in(total: u8, op: Op, width: u8, low: u8) -> bool
    requires { 1 ≤ total }
    ensures { result ≡ lies_in total op width low }
{
    match op {
        Op::Extend => low < total - 1,
        Op::Place => low <= total && width <= total - low,
        Op::PlaceAt => 1 <= low && low <= total,
        _ => low < total,
    }
}

// Whether words of so many bits have room for what a step makes.
fn has_room(total: u8, op: Op, width: u8, low: u8) -> bool
    requires { 1 ≤ total }
    ensures { result ≡ has_room total op width low }
{
    1 <= width && width <= total && lies_in(total, op, width, low)
}

// The same where a step takes all bits of a word, or the lower 64.
fn is_sized(wide: bool, op: Op, width: u8, low: u8) -> bool
    ensures { result ≡ is_sized wide op width low }
{
    if wide {
        has_room(128, op, width, low)
    } else {
        !is_long(op) && has_room(64, op, width, low)
    }
}

// Whether the places of a step lie in so many words.
fn is_placed(step: &Step, n: usize) -> bool
    ensures { result ≡ is_placed n step.now }
{
    (step.to as usize) < n
        && (step.a as usize) < n
        && (step.b as usize) < n
        && ((step.c as usize) < n || !writes(step.op))
}

// Whether a step may be taken over so many words.
fn is_sound(step: &Step, n: usize) -> bool
    ensures { result ≡ is_sound n step.now }
{
    is_placed(step, n) && is_sized(step.wide, step.op, step.width, step.low)
}

/// Whether all steps may be walked over in so many words: each place lies in them, and widths are 1 to 128.
pub fn are_sound(steps: &[Step], n: usize) -> bool
    ensures { result ≡ are_sound n steps.now }
{
    for step in steps {
        if !is_sound(step, n) {
            return false;
        }
    }
    true
}
