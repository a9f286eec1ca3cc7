// Steps of a module to what the nets and variables within its generate blocks are called.
ghost use Rattle.std.specs.Prelude.{◌≡◌, ◌++◌, ◌∷◌, [], Some, map, IfOk, OnOk};
ghost use Rattle.verilog_ast.specs.Views.{declaration_of, declared_of, declared_reg_of, plain_item_of};
ghost use Rattle.gen_unroll.specs.Declarations.{declared_name, declared_reg_name};
ghost use Rattle.gen_unroll.specs.Reaches.{innermost};
ghost use Rattle.gen_unroll.specs.Spoken.{spoken};
ghost use Rattle.ls_text.specs.Answers.{Answers};
ghost use Rattle.gen_unroll.specs.Views.{block_of, here_of, number_of, step_of};
ghost use Rattle.unit_jobs.specs.BlockNames.{called_in, item_texts, texts_within};
ghost use Rattle.ls_text.specs.TextViews.{text_items};
ghost use Rattle.unit_jobs.specs.Walks.{module_texts, open_behind, step_texts};

use gen_unroll::{Block, BlockId, Step, Unrolled, full_text, overrides_of, unroll};
use ls_text::{NameId, Names, NoMemory, Refusal};
use std::alloc::Global;
use std::collections::VecDeque;
use typed_ir::Const;
use verilog_ast::{ModuleBody, PlainItem, RegVariable, Variable};

// Adds what a name of a block is called.
fn add_name(
    alloc: Global,
    names: &Names,
    blocks: &[Block],
    block: BlockId,
    name: NameId,
    texts: &mut Vec<Vec<u8>>,
) -> Result<(), NoMemory>
    ensures { OnOk result (map text_items texts.new.items
        ≡ map text_items texts.old.items ++ spoken names.now (map block_of blocks.now) (Some block.0) name.0 ∷ []) }
{
    let text = full_text(alloc, names, blocks, Some(block), name)?;
    texts.push(text)?;
    Ok(())
}

fn add_nets(
    alloc: Global,
    names: &Names,
    blocks: &[Block],
    block: BlockId,
    nets: &[Variable],
    texts: &mut Vec<Vec<u8>>,
) -> Result<(), NoMemory>
    ensures { OnOk result (map text_items texts.new.items
        ≡ map text_items texts.old.items
        ++ map (called_in names.now (map block_of blocks.now) block.0) (map declared_name (map declared_of nets.now))) }
{
    for net in nets {
        add_name(alloc, names, blocks, block, net.name.name, texts)?;
    }
    Ok(())
}

fn add_regs(
    alloc: Global,
    names: &Names,
    blocks: &[Block],
    block: BlockId,
    regs: &[RegVariable],
    texts: &mut Vec<Vec<u8>>,
) -> Result<(), NoMemory>
    ensures { OnOk result (map text_items texts.new.items
        ≡ map text_items texts.old.items
        ++ map (called_in names.now (map block_of blocks.now) block.0) (map declared_reg_name (map declared_reg_of regs.now))) }
{
    for reg in regs {
        add_name(alloc, names, blocks, block, reg.name.name, texts)?;
    }
    Ok(())
}

// Adds what the nets and variables of an item are called, where it stands in a block.
fn add_item(
    alloc: Global,
    names: &Names,
    blocks: &[Block],
    block: Option<BlockId>,
    item: &PlainItem,
    texts: &mut Vec<Vec<u8>>,
) -> Result<(), NoMemory>
    ensures { OnOk result (map text_items texts.new.items
        ≡ map text_items texts.old.items ++ item_texts names.now (map block_of blocks.now) (here_of block) (plain_item_of item.now)) }
{
    let Some(block) = block else {
        return Ok(());
    };
    match item {
        PlainItem::Wire(_, _, nets) => {
            add_nets(alloc, names, blocks, block, nets.as_slice(), texts)
        }
        PlainItem::Reg(_, _, regs) => add_regs(alloc, names, blocks, block, regs.as_slice(), texts),
        PlainItem::LocalParameter(_, _, _)
        | PlainItem::Genvar(_, _)
        | PlainItem::Assign(_, _)
        | PlainItem::Combinational(_, _)
        | PlainItem::Clocked(_, _, _)
        | PlainItem::Instances(_, _, _) => Ok(()),
    }
}

// The innermost block, none in the module itself.
fn innermost(around: &VecDeque<BlockId>) -> Option<BlockId>
    ensures { here_of result ≡ innermost (map number_of around.now.items) }
{
    match around.front() {
        Some(block) => Some(*block),
        None => None,
    }
}

// Adds what a step declares within the blocks that are open.
#[tactic(auto, using(crate::proofs::Walking::no_input, crate::proofs::Walking::no_output))]
fn add_step(
    alloc: Global,
    names: &Names,
    blocks: &[Block],
    around: &VecDeque<BlockId>,
    step: &Step<'_>,
    texts: &mut Vec<Vec<u8>>,
) -> Result<(), NoMemory>
    ensures { OnOk result (map text_items texts.new.items
        ≡ map text_items texts.old.items ++ step_texts names.now (map block_of blocks.now) (map number_of around.now.items) (step_of step.now)) }
{
    match step {
        Step::Item(item) => add_item(alloc, names, blocks, innermost(around), item, texts),
        Step::Listed(_)
        | Step::Port(_)
        | Step::Parameter(_, _, _)
        | Step::Inputs(_, _, _, _)
        | Step::Outputs(_, _, _, _)
        | Step::Label(_)
        | Step::Open(_, _)
        | Step::Close => Ok(()),
    }
}

// The blocks that are open behind a step, the innermost first.
fn follow(around: &mut VecDeque<BlockId>, step: &Step<'_>) -> Result<(), NoMemory>
    ensures { OnOk result (map number_of around.new.items ≡ open_behind (map number_of around.old.items) (step_of step.now)) }
{
    match step {
        Step::Open(block, _) => {
            around.push_front(block.number)?;
            Ok(())
        }
        Step::Close => {
            let _innermost = around.pop_front();
            Ok(())
        }
        Step::Listed(_)
        | Step::Port(_)
        | Step::Parameter(_, _, _)
        | Step::Inputs(_, _, _, _)
        | Step::Outputs(_, _, _, _)
        | Step::Item(_)
        | Step::Label(_) => Ok(()),
    }
}

// What the nets and variables within blocks are called, in the order of their declarations.
#[tactic(auto, using(crate::proofs::Walking::step_more, crate::proofs::Walking::step_none))]
fn texts_within(
    alloc: Global,
    names: &Names,
    blocks: &[Block],
    steps: &[Step<'_>],
) -> Result<Vec<Vec<u8>>, NoMemory>
    ensures { IfOk result (λ texts. map text_items texts.items ≡ texts_within names.now (map block_of blocks.now) [] (map step_of steps.now)) }
{
    let mut texts = Vec::new(alloc);
    let mut around = VecDeque::new(alloc);
    for step in steps {
        add_step(alloc, names, blocks, &around, step, &mut texts)?;
        follow(&mut around, step)?;
    }
    Ok(texts)
}

/// What the nets and variables within the blocks of a module are called under these values of its parameters, or the first fault of
/// unrolling it. The table of names stays, so each text is of the names that came in.
#[tactic(auto, using(crate::proofs::Walking::module_named, crate::proofs::Walking::module_refused))]
pub fn block_texts(
    alloc: Global,
    names: &Names,
    body: &ModuleBody,
    values: &[Const],
) -> Result<Vec<Vec<u8>>, Refusal>
    ensures { Answers result (λ texts. map text_items texts.items)
        (module_texts names.now (declaration_of body.now) values.now) }
{
    let overrides = overrides_of(alloc, body, values)?;
    let Unrolled {
        steps,
        blocks,
        fault,
    } = unroll(alloc, body, &overrides)?;
    if let Some(fault) = fault {
        return Err(Refusal::Fault(fault));
    }
    let texts = texts_within(alloc, names, &blocks, &steps)?;
    Ok(texts)
}
