// The signals of an unrolled module, and one of them by its name.
ghost use Rattle.std.specs.Prelude.{◌≡◌, map, length, IfOk};
ghost use Rattle.verilog_ast.specs.Views.{ports_of, declaration_of};
ghost use Rattle.ls_text.specs.Answers.{Answers};
ghost use Rattle.gen_unroll.specs.Views.{step_of};
ghost use Rattle.gen_unroll.specs.ModuleViews.{signals_in, table_in};
ghost use Rattle.gen_unroll.specs.Numbers as n;
ghost use Rattle.gen_unroll.specs.TableViews.{signals_of, IsPlaced};

use crate::heading::{in_order, number_all};
use crate::signal_table::ModuleSignals;
use crate::step::Step;
use crate::stepping::declared_in;
use crate::table::Table;
use ls_text::{NameId, NoMemory, Refusal};
use std::alloc::Global;
use typed_ir::SignalId;
use verilog_ast::{ModuleBody, Ports};

// The signals that were declared, with their numbers.
fn numbered(alloc: Global, table: &Table, ports: &Ports) -> Result<ModuleSignals, NoMemory>
    requires { IsPlaced table.now }
    ensures { IfOk result (λ m. table_in m ≡ n.table_of (n.header_names (ports_of ports.now)) (signals_of table.now)) }
{
    let numbering = number_all(alloc, table, ports)?;
    let declared = in_order(alloc, &numbering, table.signals.len())?;
    Ok(ModuleSignals {
        signals: numbering.signals,
        declared,
        names: numbering.names,
        blocks: numbering.blocks,
    })
}

/// The signals of a module with these steps, which `unroll_within` answers of it, or the first fault of a range.
#[tactic(auto, unfolding(crate::specs::Numbers::module_table))]
pub fn module_signals(
    alloc: Global,
    of: &ModuleBody,
    steps: &[Step<'_>],
) -> Result<ModuleSignals, Refusal>
    ensures { Answers result table_in (n.module_table (declaration_of of.now) (map step_of steps.now)) }
{
    let table = declared_in(alloc, of, steps)?;
    let signals = numbered(alloc, &table, &of.ports)?;
    Ok(signals)
}

/// The number of a name of the module itself, if it is one of its signals.
pub fn number_of_name(of: &ModuleSignals, name: NameId) -> Option<SignalId>
    ensures { result ≡ n.number_of_name name.0 (signals_in of.now) }
{
    match of.names.find(name.0) {
        Some(number) => Some(SignalId(number)),
        None => None,
    }
}
