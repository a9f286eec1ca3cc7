// The words that a design begins with, and how many its steps need.
ghost use Rattle.std.specs.Prelude.{◌≡◌, ◌≤◌, ◌<◌, ◌+◌, ◌-◌, ◌++◌, ℕ, IsTrue, length, replicate, IfOk, OnOk};
ghost use Rattle.word_steps.specs.Sound.{is_placed};
ghost use Rattle.design_steps.specs.Places.{are_placed};
ghost use Rattle.design_steps.specs.Layings.{mark_of};

use crate::layout::Layout;
use ls_text::NoMemory;
use std::alloc::Global;
use word_steps::Step;

// The greatest place that a step names, or a greater number. What a skip passes over counts as a place.
fn greatest(step: &Step, least: u32) -> u32
    ensures least { least ≤ result }
    ensures placed { (n : ℕ) → result < n → IsTrue (is_placed n step.now) }
{
    let to = step.to;
    let a = step.a;
    let b = step.b;
    let c = step.c;
    least.max(to).max(a).max(b).max(c)
}

/// The greatest place that steps name, or a greater number: all their places lie in more words than that.
pub fn greatest_of(steps: &[Step], least: u32) -> u32
    ensures least { least ≤ result }
    ensures placed { (n : ℕ) → result < n → IsTrue (are_placed n steps.now) }
{
    let mut most = least;
    for step in steps {
        most = greatest(step, most);
    }
    most
}

// So many words more that are 0.
fn push_zeros(count: usize, words: &mut Vec<u128>) -> Result<(), NoMemory>
    ensures { OnOk result (words.new.items ≡ words.old.items ++ replicate count 0) }
{
    let mut left = count;
    'zeros: while left > 0 {
        words.push(0)?;
        left -= 1;
    }
    Ok(())
}

/// So many words, of which the constants stand at their places and all others are 0.
pub fn beginning_of(alloc: Global, layout: &Layout, count: usize) -> Result<Vec<u128>, NoMemory>
    requires { mark_of layout.now < count }
    ensures { IfOk result (λ words. words.items ≡ (replicate layout.now.constants.first 0 ++ layout.now.constants.values.keys)
        ++ replicate (count - layout.now.constants.first - length layout.now.constants.values.keys) 0) }
{
    let first = layout.constants.first as usize;
    let values = layout.constants.values.as_slice();
    let mut words = Vec::with_capacity(alloc, count)?;
    push_zeros(first, &mut words)?;
    words.extend_from_slice(values)?;
    push_zeros(count - first - values.len(), &mut words)?;
    Ok(words)
}
