// Steps that are put behind others.
ghost use Rattle.std.specs.Prelude.{◌≡◌, ◌+◌, ◌++◌, ◌∷◌, [], IfOk, OnOk};

use ls_text::NoMemory;
use word_steps::Step;

/// One step more.
pub fn put(steps: &mut Vec<Step>, step: Step) -> Result<(), NoMemory>
    ensures { OnOk result (steps.new.items ≡ steps.old.items ++ step ∷ []) }
{
    steps.push(step)?;
    Ok(())
}

/// The next place. One above the largest number is `NoMemory`.
pub fn next(mark: u32) -> Result<u32, NoMemory>
    ensures { IfOk result (λ place. place ≡ mark + 1) }
{
    mark.checked_add(1).ok_or(NoMemory)
}
