// The walk over steps, in place.
ghost use Rattle.std.specs.Prelude.{◌≡◌, ◌≤◌, ◌<◌, false, IsTrue, length};
ghost use Rattle.word_steps.specs.Walks.{act, walk, at, skips, writes, env_of};
ghost use Rattle.word_steps.specs.Sound.{is_sound, are_sound};

use crate::making::{long_made, short_made};
use crate::op::Op;
use crate::soundness::writes;
use crate::step::Step;
use crate::wide::is_signed_less;

// How many steps a step passes over.
fn skips(op: Op, width: u8, count: u32, x: u128, y: u128) -> usize
    requires at_least_one { 1 ≤ width }
    requires at_most_128 { width ≤ 128 }
    ensures skip { result ≡ skips op width count x y }
    ensures few { result < 4294967296 }
{
    match op {
        Op::SkipIfZero => if x == 0 { count as usize } else { 0 },
        Op::SkipIfEqual => if x == y { count as usize } else { 0 },
        Op::SkipUnlessEqual => if x == y { 0 } else { count as usize },
        Op::SkipUnlessLess => if x < y { 0 } else { count as usize },
        Op::SkipIfLess => if x < y { count as usize } else { 0 },
        Op::SkipUnlessSignedLess => if is_signed_less(x, y, width) {
            0
        } else {
            count as usize
        },
        Op::SkipIfSignedLess => if is_signed_less(x, y, width) {
            count as usize
        } else {
            0
        },
        Op::Skip => count as usize,
        _ => 0,
    }
}

// Takes one step for 128 bits.
#[tactic(auto, using(crate::proofs::Words::word_set))]
fn slow(step: &Step, words: &mut [u128])
    requires sound { IsTrue (is_sound (length words.old) step.now) }
    requires wide { IsTrue step.now.wide }
    requires writes { IsTrue (writes step.now.op) }
    ensures { env_of words.new ≡ act step.now (env_of words.old) }
{
    let x = words[step.a as usize];
    let y = words[step.b as usize];
    words[step.to as usize] = long_made(step, x, y, words[step.c as usize]);
}

// Takes one step for 64 bits.
#[tactic(auto, using(crate::proofs::Words::word_set))]
fn quick(step: &Step, words: &mut [u128])
    requires sound { IsTrue (is_sound (length words.old) step.now) }
    requires short { step.now.wide ≡ false }
    requires writes { IsTrue (writes step.now.op) }
    ensures { env_of words.new ≡ act step.now (env_of words.old) }
{
    words[step.to as usize] = short_made(step, words) as u128;
}

// Takes one step, and says how many of those behind it are passed over.
#[tactic(auto, using(crate::proofs::Steps::act_still, crate::proofs::Steps::sound_some, crate::proofs::Steps::sound_few))]
fn taken(step: &Step, words: &mut [u128]) -> usize
    requires { IsTrue (is_sound (length words.old) step.now) }
    ensures skip { result ≡ skips step.now.op step.now.width step.now.c (env_of words.old step.now.a) (env_of words.old step.now.b) }
    ensures words { env_of words.new ≡ act step.now (env_of words.old) }
    ensures few { result < 4294967296 }
{
    if !writes(step.op) {
        return skips(
            step.op,
            step.width,
            step.c,
            words[step.a as usize],
            words[step.b as usize],
        );
    }
    if step.wide {
        slow(step, words);
    } else {
        quick(step, words);
    }
    0
}

/// Walks over all steps, in place. No step takes memory or fails.
pub fn walk(steps: &[Step], words: &mut [u128])
    requires { IsTrue (are_sound (length words.old) steps.now) }
    ensures { env_of words.new ≡ (walk steps.now (at 0 (env_of words.old))).words }
{
    let mut index = 0;
    'walking: while index < steps.len() {
        index = index + 1 + taken(&steps[index], words);
    }
}
