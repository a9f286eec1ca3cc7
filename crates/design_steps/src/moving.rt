// Steps over words that are moved.
ghost use Rattle.std.specs.Prelude.{◌≡◌};
ghost use Rattle.word_steps.specs.Walks.{writes};
ghost use Rattle.design_steps.specs.Moves.{moved, moved_step};

use word_steps::{Step, writes};

/// Where a place is moved to.
pub fn moved(places: &[u32], place: u32) -> u32
    ensures { result ≡ moved places.now place }
{
    match places.get(place as usize) {
        Some(to) => *to,
        None => place,
    }
}

/// A step over words that are moved.
pub fn moved_step(places: &[u32], step: Step) -> Step
    ensures { result ≡ moved_step places.now step }
{
    Step {
        op: step.op,
        width: step.width,
        low: step.low,
        wide: step.wide,
        to: moved(places, step.to),
        a: moved(places, step.a),
        b: moved(places, step.b),
        c: if writes(step.op) {
            moved(places, step.c)
        } else {
            step.c
        },
    }
}
