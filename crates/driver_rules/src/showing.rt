// Parts at fault to the mention of the earliest of them, and to the fault there.
ghost use Rattle.std.specs.Prelude.{◌≡◌, ◌++◌, ◌∷◌, [], Some, IfErr, IfOk, OnOk, if◌then◌else◌};
ghost use Rattle.typed_ir.specs.declared.mention.Mention.{Mention};
ghost use Rattle.width_rules.specs.Faults.{IsFirst};
ghost use Rattle.driver_rules.specs.Mentioned.{of_mention, shown_at, sooner, earliest, shown_faults};

use crate::shown::Shown;
use ls_text::{NoMemory, Place, Refusal};
use std::alloc::Global;
use typed_ir::Mention;
use width_rules::refused;

/// Adds the number of a part where it is at fault.
pub fn note_if(fault: bool, number: usize, found: &mut Vec<usize>) -> Result<(), NoMemory>
    ensures { IfOk result (λ _. found.new.items ≡ (if fault then found.old.items ++ number ∷ [] else found.old.items)) }
{
    if fault {
        found.push(number)?;
    }
    Ok(())
}

fn of_mention(mention: Mention) -> Shown
    ensures { result ≡ of_mention mention }
{
    Shown {
        name: Some(mention.name),
        at: mention.at,
        order: mention.order,
    }
}

// The mention with this number, else the place without a name.
fn shown_at(mentions: &[Mention], at: Place, number: usize) -> Shown
    ensures { result ≡ shown_at mentions.now at number }
{
    if number < mentions.len() {
        of_mention(mentions[number])
    } else {
        Shown {
            name: None,
            at,
            order: 0,
        }
    }
}

// The one that stands earlier in the text, of equals the first.
fn sooner(found: Option<Shown>, shown: Shown) -> Shown
    ensures { Some result ≡ sooner found (Some shown) }
{
    match found {
        None => shown,
        Some(first) => {
            if first.order <= shown.order {
                first
            } else {
                shown
            }
        }
    }
}

/// The earliest in the text of the mentions with these numbers, of equals the first in the list; a number that has no mention stands for
/// the item's place without a name, which is as early as can be.
pub fn earliest(numbers: &[usize], mentions: &[Mention], at: Place) -> Option<Shown>
    ensures { result ≡ earliest numbers.now mentions.now at }
{
    let mut found = None;
    for number in numbers {
        let shown = shown_at(mentions, at, *number);
        found = Some(sooner(found, shown));
    }
    found
}

/// A fault of this code where something is at fault, or want of memory.
pub fn check_shown(alloc: Global, code: u8, found: Option<Shown>) -> Result<(), Refusal>
    ensures faultless { OnOk result (shown_faults code found ≡ []) }
    ensures fault { IfErr result (IsFirst (shown_faults code found)) }
{
    match found {
        None => Ok(()),
        Some(shown) => Err(refused(alloc, code, shown.at, shown.name)),
    }
}
