// The modules of a design, and its top.
ghost use Rattle.std.specs.Prelude.{◌≡◌, [], ◌++◌, None, Some, Ok, IfOk, OnOk};
ghost use Rattle.ls_text.specs.declared.at.At.TheVariants.{Edit};
ghost use Rattle.ls_text.specs.declared.refusal.Refusal.TheVariants as refusal;
ghost use Rattle.verilog_ast.specs.Views.{declaration_of as plain_module, declarations_of};
ghost use Rattle.ls_text.specs.Answers.{Answers, Leads};
ghost use Rattle.module_names.specs.Views.{modules_of};
ghost use Rattle.elaborate.specs.Clocks.{top_clock};
ghost use Rattle.elaborate.specs.Elaborated as e;
ghost use Rattle.elaborate.specs.Jobs.{all_view};
ghost use Rattle.clock_rules.specs.Views.{clock_view};

use crate::elaborating::from_top;
use crate::limits::Limits;
use crate::standing::StandingInstance;
use ls_text::{At, Fault, NameId, NameList, Refusal};
use module_names::{ModuleNames, Modules};
use std::alloc::Global;
use verilog_ast::Module;
use width_rules::refused_at;

// Modules behind the others; 21 at a name a second time.
fn add_all<'a>(alloc: Global, modules: &mut Modules<'a>, all: &'a [Module]) -> Result<(), Refusal>
    ensures answer { Leads result (modules_of modules.new) (e.named_once (modules_of modules.old) (declarations_of all.now)) }
    ensures all { OnOk result (modules_of modules.new ≡ modules_of modules.old ++ declarations_of all.now) }
{
    for one in all {
        let name = one.body.name;
        if modules.find(name.name).is_some() {
            return Err(refused_at(alloc, 21, name));
        }
        modules.add(one)?;
    }
    Ok(())
}

// The modules by their names; 21 at a name a second time.
fn named_once<'a>(alloc: Global, all: &'a [Module]) -> Result<Modules<'a>, Refusal>
    ensures answer { Answers result modules_of (e.named_once [] (declarations_of all.now)) }
    ensures all { IfOk result (λ ms. modules_of ms ≡ declarations_of all.now) }
{
    let mut modules = Modules::new(alloc);
    add_all(alloc, &mut modules, all)?;
    Ok(modules)
}

// The first module beyond those that a design may have: 40 at its name.
#[tactic(auto, using(crate::proofs::Beyond::beyond))]
fn few_modules(alloc: Global, most: usize, all: &[Module]) -> Result<(), Refusal>
    ensures { Answers result (λ x. x) (e.few_modules most (declarations_of all.now)) }
{
    if most < all.len() {
        let beyond = &all[most];
        Err(refused_at(alloc, 40, beyond.body.name))
    } else {
        Ok(())
    }
}

// No top, or none of the modules: 22, which shows no name.
fn no_top(alloc: Global) -> Refusal
    ensures { result ≡ refusal.Fault (record { code = 22; at = Edit; names = [] }) }
{
    Refusal::Fault(Fault {
        code: 22,
        at: At::Edit,
        names: NameList::new(Vec::new(alloc)),
    })
}

// The clock of a top: its port of this name, if it has one.
fn top_clock(clock: NameId, of: &ModuleNames<'_>) -> Option<NameId>
    ensures { clock_view result ≡ top_clock clock.0 (plain_module of.now.body.now) }
{
    if of.ports.has(clock) {
        Some(clock)
    } else {
        None
    }
}

// The instances of a design of these modules.
#[tactic(auto, unfolding(crate::specs::Elaborated::elaborated, crate::specs::Elaborated::top_of))]
fn from_modules(
    alloc: Global,
    limits: Limits,
    all: &[Module],
    modules: &Modules<'_>,
    top: NameId,
    clock: NameId,
) -> Result<Vec<StandingInstance>, Refusal>
    requires once { e.named_once [] (declarations_of all.now) ≡ Ok (modules_of modules.now) }
    requires all { modules_of modules.now ≡ declarations_of all.now }
    ensures { Answers result all_view (e.elaborated limits (declarations_of all.now) top.0 clock.0) }
{
    few_modules(alloc, limits.modules, all)?;
    match modules.find(top) {
        None => Err(no_top(alloc)),
        Some(of) => from_top(alloc, limits, modules, of, top_clock(clock, of)),
    }
}

/// The instances of a design, depth first: the top, and each other behind the one that it stands in.
///
/// Faults: 21 TwoModules, 40 TooMany at a module beyond the limit, 22 NoTop; then those of the top and of what stands below it. Else want
/// of memory.
#[tactic(auto, unfolding(crate::specs::Elaborated::elaborated, crate::specs::Elaborated::top_of))]
pub fn elaborate_within(
    alloc: Global,
    limits: Limits,
    all: &[Module],
    top: NameId,
    clock: NameId,
) -> Result<Vec<StandingInstance>, Refusal>
    ensures { Answers result all_view (e.elaborated limits (declarations_of all.now) top.0 clock.0) }
{
    let modules = named_once(alloc, all)?;
    from_modules(alloc, limits, all, &modules, top, clock)
}
