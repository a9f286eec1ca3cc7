// The names in reach of a unit behind each step.
ghost use Rattle.std.specs.Prelude.{◌≡◌, IfOk, OnOk};
ghost use Rattle.verilog_ast.specs.Views.{declaration_of};
ghost use Rattle.gen_unroll.specs.Reaches.{IsEven};
ghost use Rattle.gen_unroll.specs.Views.{step_of};
ghost use Rattle.gen_unroll.specs.ModuleViews.{signals_in};
ghost use Rattle.gen_unroll.specs.UnitReaches as u;
ghost use Rattle.gen_unroll.specs.UnitReachViews.{unit_reach_of};

use crate::entering::{enter_block, enter_own};
use crate::hiding::{hide_items, hide_module};
use crate::reach::Reach;
use crate::signal_table::ModuleSignals;
use crate::step::Step;
use crate::unit_reach::UnitReach;
use ls_text::NoMemory;
use std::alloc::Global;
use verilog_ast::ModuleBody;

impl UnitReach {
    /// Where a module begins: of its nets and variables its own signals are in reach, each variable as a register where it isn't settled.
    pub fn new(
        alloc: Global,
        of: &ModuleBody,
        signals: &ModuleSignals,
        settled: &[bool],
    ) -> Result<UnitReach, NoMemory>
        ensures reach { IfOk result (λ r. unit_reach_of r ≡ u.unit_reach_in (u.writer_of (u.is_settled settled.now) (signals_in signals.now)) (signals_in signals.now) (declaration_of of.now)) }
        ensures even { IfOk result (λ r. IsEven (unit_reach_of r)) }
    {
        let mut reach = Reach::new(alloc, of)?;
        hide_module(&mut reach.scope, of)?;
        enter_own(&mut reach.scope, signals, settled)?;
        Ok(UnitReach { reach })
    }

    /// The names in reach behind a step. Want of memory is `NoMemory`; nothing is said of the names then.
    pub fn follow(
        &mut self,
        signals: &ModuleSignals,
        settled: &[bool],
        step: &Step<'_>,
    ) -> Result<(), NoMemory>
        requires { IsEven (unit_reach_of self.old) }
        ensures reach { OnOk result (unit_reach_of self.new
            ≡ u.unit_in_reach (u.writer_of (u.is_settled settled.now) (signals_in signals.now)) (signals_in signals.now) (step_of step.now) (unit_reach_of self.old)) }
        ensures even { OnOk result (IsEven (unit_reach_of self.new)) }
    {
        self.reach.follow(step)?;
        if let Step::Open(block, items) = step {
            hide_items(&mut self.reach.scope, items)?;
            enter_block(&mut self.reach.scope, signals, settled, block.number)?;
        }
        Ok(())
    }
}
