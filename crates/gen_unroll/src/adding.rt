// Signals, each with the next number.
ghost use Rattle.std.specs.Prelude.{◌≡◌, ◌≤◌, ◌<◌, ◌++◌, ◌∷◌, ◌==◌, ℕ, [], Some, length, if◌then◌else◌, OnOk};
ghost use Rattle.gen_unroll.specs.Reaches.{same_block};
ghost use Rattle.gen_unroll.specs.Numbers.{is_own_named};
ghost use Rattle.gen_unroll.specs.NumberingViews.{numbered_in, IsNumbered};
ghost use Rattle.gen_unroll.specs.Places.{first_of};
ghost use Rattle.gen_unroll.specs.PlaceViews.{place_in};
ghost use Rattle.gen_unroll.specs.Rows.{row_in};
ghost use Rattle.gen_unroll.specs.SignalViews.{signal_of, numbered_of};

use crate::block_signal::BlockSignal;
use crate::first_places::FirstPlaces;
use crate::named_signal::NamedSignal;
use crate::numbering::Numbering;
use ls_text::NoMemory;
use std::alloc::Global;
use typed_ir::SignalId;

/// No number. It takes no memory.
pub fn no_numbers(alloc: Global) -> Numbering
    ensures signals { numbered_in result ≡ [] }
    ensures numbered { IsNumbered result }
{
    Numbering {
        signals: Vec::new(alloc),
        names: FirstPlaces::new(alloc),
        orders: FirstPlaces::new(alloc),
        blocks: Vec::new(alloc),
    }
}

// So many lists of signals, of which new ones are empty.
fn make_rows(
    alloc: Global,
    blocks: &mut Vec<Vec<BlockSignal>>,
    count: usize,
) -> Result<(), NoMemory>
    ensures rows { OnOk result ((b : ℕ) → row_in blocks.new.items b ≡ row_in blocks.old.items b) }
    ensures long { OnOk result (count ≤ length blocks.new.items) }
{
    for _row in blocks.len()..count {
        blocks.push(Vec::new(alloc))?;
    }
    Ok(())
}

// One signal more in its block.
fn push_row(
    blocks: &mut Vec<Vec<BlockSignal>>,
    index: usize,
    signal: BlockSignal,
) -> Result<(), NoMemory>
    requires { index < length blocks.old.items }
    ensures { OnOk result ((b : ℕ) → row_in blocks.new.items b ≡ row_in blocks.old.items b ++ (if index == b then numbered_of signal ∷ [] else [])) }
{
    blocks[index].push(signal)?;
    Ok(())
}

// A signal in its block, if it stands in one.
fn note_block(
    alloc: Global,
    blocks: &mut Vec<Vec<BlockSignal>>,
    signal: BlockSignal,
) -> Result<(), NoMemory>
    ensures { OnOk result ((b : ℕ) → row_in blocks.new.items b
        ≡ row_in blocks.old.items b ++ (if same_block (Some b) (numbered_of signal).signal.block then numbered_of signal ∷ [] else [])) }
{
    let Some(block) = signal.signal.block else {
        return Ok(());
    };
    let index = block.index();
    make_rows(alloc, blocks, index + 1)?;
    push_row(blocks, index, signal)
}

// The number of a name of the module itself.
fn note_own(names: &mut FirstPlaces, signal: &NamedSignal, number: u32) -> Result<(), NoMemory>
    ensures { OnOk result ((q : ℕ) → place_in names.new q ≡ first_of (place_in names.old q) (is_own_named q (signal_of signal.now)) number) }
{
    match signal.block {
        None => names.note(signal.name.name.0, number),
        Some(_) => Ok(()),
    }
}

/// A signal with the next number. 2^32 of them are want of memory.
pub fn add(alloc: Global, numbering: &mut Numbering, signal: NamedSignal) -> Result<(), NoMemory>
    requires { IsNumbered numbering.old }
    ensures signals { OnOk result (numbered_in numbering.new ≡ numbered_in numbering.old ++ signal_of signal ∷ []) }
    ensures numbered { OnOk result (IsNumbered numbering.new) }
{
    let count = numbering.signals.len();
    if count >= u32::MAX as usize {
        return Err(NoMemory);
    }
    let number = count as u32;
    numbering.signals.push(signal)?;
    numbering.orders.note(signal.order as u64, number)?;
    note_own(&mut numbering.names, &signal, number)?;
    note_block(
        alloc,
        &mut numbering.blocks,
        BlockSignal {
            number: SignalId(number),
            signal,
        },
    )?;
    Ok(())
}
