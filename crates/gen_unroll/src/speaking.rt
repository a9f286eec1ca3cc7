// Names within blocks to the texts that they are called by.
ghost use Rattle.std.specs.Prelude.{◌≡◌, ◌++◌, map, reverse, IfOk, OnOk};
ghost use Rattle.std.specs.Fmt.{signed_decimal};
ghost use Rattle.std.specs.Option.{option_map};
ghost use Rattle.width_rules.specs.Sizes.{read_as};
ghost use Rattle.gen_unroll.specs.Spoken.{index_text, prefix_in, spoken};
ghost use Rattle.gen_unroll.specs.Views.{block_of, here_of, turn_of};

use crate::block::Block;
use crate::block_id::BlockId;
use crate::turn::Turn;
use ls_text::{NameId, Names, NoMemory};
use std::alloc::Global;
use typed_ir::Const;

// The number that a constant stands for, in decimal.
fn push_value(out: &mut Vec<u8>, value: Const) -> Result<(), NoMemory>
    ensures { OnOk result (out.new.items ≡ out.old.items ++ signed_decimal (read_as value.signed value.bits.width value.bits.value)) }
{
    let mut buffer = itoa::Buffer::new();
    if value.signed {
        out.extend_from_slice(buffer.format(value.bits.as_signed()).as_bytes())?;
    } else {
        out.extend_from_slice(buffer.format(value.bits.value()).as_bytes())?;
    }
    Ok(())
}

// `[VALUE]` of a loop's turn.
fn push_index(out: &mut Vec<u8>, turn: Option<Turn>) -> Result<(), NoMemory>
    ensures { OnOk result (out.new.items ≡ out.old.items ++ index_text (option_map turn_of turn)) }
{
    match turn {
        None => Ok(()),
        Some(turn) => {
            out.push(b'[')?;
            push_value(out, turn.value)?;
            out.push(b']')?;
            Ok(())
        }
    }
}

// What stands before a name of a block: the labels of the blocks around it, of this one, and their indices.
#[tactic(auto, using(crate::proofs::Prefixes::prefix_at, crate::proofs::Prefixes::prefix_beyond))]
fn push_prefix(
    out: &mut Vec<u8>,
    names: &Names,
    blocks: &[Block],
    block: Option<BlockId>,
) -> Result<(), NoMemory>
    ensures { OnOk result (out.new.items ≡ out.old.items ++ prefix_in names.now (reverse (map block_of blocks.now)) (here_of block)) }
{
    let Some(number) = block else {
        return Ok(());
    };
    let at = number.index();
    if at >= blocks.len() {
        return Ok(());
    }
    let (earlier, _) = blocks.split_at(at);
    let this = &blocks[at];
    push_prefix(out, names, earlier, this.parent)?;
    out.extend_from_slice(names.text(this.label.name))?;
    push_index(out, this.turn)?;
    out.push(b'.')?;
    Ok(())
}

/// What a name within a block is called: `g[0].h[1].x`, `g.x`; a name of the module itself is called as it is. `blocks` is the table of
/// a module's blocks.
#[tactic(auto, unfolding(crate::specs::Spoken::spoken))]
pub fn full_text(
    alloc: Global,
    names: &Names,
    blocks: &[Block],
    block: Option<BlockId>,
    name: NameId,
) -> Result<Vec<u8>, NoMemory>
    ensures { IfOk result (λ text. text.items ≡ spoken names.now (map block_of blocks.now) (here_of block) name.0) }
{
    let mut text = Vec::new(alloc);
    push_prefix(&mut text, names, blocks, block)?;
    text.extend_from_slice(names.text(name))?;
    Ok(text)
}
