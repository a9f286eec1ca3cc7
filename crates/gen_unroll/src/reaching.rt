// The names in reach behind each step.
ghost use Rattle.std.specs.Prelude.{◌≡◌, map, IfOk, OnOk};
ghost use Rattle.verilog_ast.specs.Views.{declaration_of, generate_item_of, items_of};
ghost use Rattle.width_rules.specs.Found.{meaning_of};
ghost use Rattle.gen_unroll.specs.Reaches.{reach_in, innermost, in_reach, known_reach, opened_reach, closed_reach, IsEven};
ghost use Rattle.gen_unroll.specs.ReachViews.{reach_of};
ghost use Rattle.gen_unroll.specs.Views.{block_of, here_of, number_of, step_of};

use crate::block::Block;
use crate::block_id::BlockId;
use crate::naming::{declare, declare_module_items, declare_ports, open_block};
use crate::reach::Reach;
use crate::step::Step;
use ls_text::NoMemory;
use std::alloc::Global;
use std::collections::VecDeque;
use verilog_ast::{GenerateItem, Identifier, ModuleBody};
use width_rules::{Entry, Scope};

impl Reach {
    /// The names of a module itself.
    pub fn new(alloc: Global, of: &ModuleBody) -> Result<Reach, NoMemory>
        ensures reach { IfOk result (λ r. reach_of r ≡ reach_in (declaration_of of.now)) }
        ensures even { IfOk result (λ r. IsEven (reach_of r)) }
    {
        let mut scope = Scope::new(alloc);
        declare_ports(&mut scope, &of.ports)?;
        declare_module_items(&mut scope, of.items.as_slice())?;
        Ok(Reach {
            scope,
            blocks: VecDeque::new(alloc),
        })
    }

    /// The innermost block, none in the module itself.
    pub fn block(&self) -> Option<BlockId>
        ensures { here_of result ≡ innermost (map number_of self.now.blocks.items) }
    {
        match self.blocks.front() {
            Some(block) => Some(*block),
            None => None,
        }
    }

    // One more name, in the innermost block.
    fn know(&mut self, name: Identifier, entry: Entry) -> Result<(), NoMemory>
        requires { IsEven (reach_of self.old) }
        ensures reach { OnOk result (reach_of self.new ≡ known_reach name (meaning_of entry) (reach_of self.old)) }
        ensures even { OnOk result (IsEven (reach_of self.new)) }
    {
        declare(&mut self.scope, name, entry)?;
        Ok(())
    }

    // A block is opened, with its turn's genvar and its own names.
    fn open(&mut self, block: &Block, items: &[GenerateItem]) -> Result<(), NoMemory>
        requires { IsEven (reach_of self.old) }
        ensures reach { OnOk result (reach_of self.new ≡ opened_reach (block_of block.now) (items_of (map generate_item_of items.now)) (reach_of self.old)) }
        ensures even { OnOk result (IsEven (reach_of self.new)) }
    {
        self.blocks.push_front(block.number)?;
        open_block(&mut self.scope, block.turn, items)?;
        Ok(())
    }

    // The innermost block ends.
    fn close(&mut self)
        requires { IsEven (reach_of self.old) }
        ensures reach { reach_of self.new ≡ closed_reach (reach_of self.old) }
        ensures even { IsEven (reach_of self.new) }
    {
        match self.blocks.pop_front() {
            Some(_) => self.scope.close_block(),
            None => {}
        }
    }

    /// The names in reach behind a step. Want of memory is `NoMemory`; nothing is said of the names then.
    pub fn follow(&mut self, step: &Step<'_>) -> Result<(), NoMemory>
        requires { IsEven (reach_of self.old) }
        ensures reach { OnOk result (reach_of self.new ≡ in_reach (step_of step.now) (reach_of self.old)) }
        ensures even { OnOk result (IsEven (reach_of self.new)) }
    {
        match step {
            Step::Parameter(_, name, value) => self.know(*name, Entry::Constant(*value)),
            Step::Label(name) => self.know(*name, Entry::Unknown),
            Step::Open(block, items) => self.open(block, items),
            Step::Close => {
                self.close();
                Ok(())
            }
            Step::Listed(_)
            | Step::Port(_)
            | Step::Inputs(_, _, _, _)
            | Step::Outputs(_, _, _, _)
            | Step::Item(_) => Ok(()),
        }
    }
}
