// A module's own checks: its steps, what unrolling ends with, and the ports of its header.
ghost use Rattle.std.specs.Prelude.{◌≡◌, map};
ghost use Rattle.std.specs.Option.{option_map};
ghost use Rattle.verilog_ast.specs.Views.{declaration_of as plain_module};
ghost use Rattle.gen_unroll.specs.Reaches.{reach_in, IsEven};
ghost use Rattle.gen_unroll.specs.Told.{fault_in};
ghost use Rattle.gen_unroll.specs.Unrolled.{unrolled_module};
ghost use Rattle.ls_text.specs.Answers.{Answers, Leads};
ghost use Rattle.gen_unroll.specs.ReachViews.{reach_of};
ghost use Rattle.gen_unroll.specs.Views.{override_view, step_of};
ghost use Rattle.elaborate.specs.Checks as c;
ghost use Rattle.elaborate.specs.Views.{checked_of, declaration_of, table_of};
ghost use Rattle.module_names.specs.Views.{modules_of};

use crate::body::check_step;
use crate::checking::Checking;
use crate::declaration::Declaration;
use crate::declaration_kind::DeclarationKind;
use crate::declarations::Declarations;
use crate::declaring::is_port;
use gen_unroll::{Reach, Step};
use ls_text::{Fault, Place, Refusal};
use module_names::{ModuleNames, Modules, NameOrder};
use std::alloc::Global;
use typed_ir::Const;
use verilog_ast::{Identifier, PortNet};
use width_rules::refused_at;

// What is known before the first step.
fn begin(alloc: Global) -> Checking
    ensures { checked_of result ≡ c.nothing_checked }
{
    Checking {
        alloc,
        ports: NameOrder::new(alloc),
        port: Declaration {
            at: Place {
                file: 0,
                line: 1,
                col: 1,
            },
            kind: DeclarationKind::Input(PortNet::Wire),
            range: None,
            signed: false,
        },
        parameters: Vec::new(alloc),
        declared: Declarations::new(alloc),
        children: Vec::new(alloc),
    }
}

// Steps one by one, each with the names that are in reach before it.
fn check_steps(
    check: &mut Checking,
    modules: &Modules<'_>,
    here: &mut Reach,
    steps: &[Step<'_>],
) -> Result<(), Refusal>
    requires { IsEven (reach_of here.old) }
    ensures { Leads result (checked_of check.new) (c.check_steps (modules_of modules.now) (reach_of here.old) (map step_of steps.now) (checked_of check.old)) }
{
    for step in steps {
        check_step(check, here, modules, step)?;
        here.follow(step)?;
    }
    Ok(())
}

// Whether a name of the header is declared as a port.
fn is_declared_port(found: Option<Declaration>) -> bool
    ensures { result ≡ c.is_declared_port (option_map declaration_of found) }
{
    match found {
        None => false,
        Some(found) => is_port(found.kind),
    }
}

// The names of the header that aren't declared as ports: 27 at the first one.
fn ports_declared(alloc: Global, ports: &[Identifier], table: &Declarations) -> Result<(), Refusal>
    ensures { Answers result (λ x. x) (c.ports_declared ports.now (table_of table.now)) }
{
    for name in ports {
        let found = table.find(None, name.name);
        if !is_declared_port(found) {
            return Err(refused_at(alloc, 27, *name));
        }
    }
    Ok(())
}

// Steps of a module from its first one on.
fn all_steps(
    check: &mut Checking,
    modules: &Modules<'_>,
    of: &ModuleNames<'_>,
    steps: &[Step<'_>],
) -> Result<(), Refusal>
    ensures { Leads result (checked_of check.new) (c.check_steps (modules_of modules.now) (reach_in (plain_module of.now.body.now)) (map step_of steps.now) (checked_of check.old)) }
{
    let mut here = Reach::new(check.alloc, of.body)?;
    check_steps(check, modules, &mut here, steps)
}

// The checks of a module, from nothing on.
#[tactic(auto, unfolding(crate::specs::Checks::checked), using(crate::proofs::Endings::endings))]
fn check_unrolled(
    check: &mut Checking,
    turns: u32,
    modules: &Modules<'_>,
    of: &ModuleNames<'_>,
    overrides: &[Option<Const>],
    steps: &[Step<'_>],
    fault: Option<Fault>,
) -> Result<(), Refusal>
    requires begun { checked_of check.old ≡ c.nothing_checked }
    requires said { map step_of steps.now ≡ (unrolled_module turns (map override_view overrides.now) (plain_module of.now.body.now)).said }
    requires ends { fault ≡ fault_in (unrolled_module turns (map override_view overrides.now) (plain_module of.now.body.now)).ending }
    ensures { Leads result (checked_of check.new) (c.checked turns (modules_of modules.now) (plain_module of.now.body.now) (map override_view overrides.now)) }
{
    all_steps(check, modules, of, steps)?;
    if let Some(fault) = fault {
        return Err(Refusal::Fault(fault));
    }
    ports_declared(check.alloc, of.ports.as_slice(), &check.declared)?;
    Ok(())
}

/// What the checks of a module find under these overrides, of which these are the steps and the first fault of its unrolling.
pub fn check(
    alloc: Global,
    turns: u32,
    modules: &Modules<'_>,
    of: &ModuleNames<'_>,
    overrides: &[Option<Const>],
    steps: &[Step<'_>],
    fault: Option<Fault>,
) -> Result<Checking, Refusal>
    requires said { map step_of steps.now ≡ (unrolled_module turns (map override_view overrides.now) (plain_module of.now.body.now)).said }
    requires ends { fault ≡ fault_in (unrolled_module turns (map override_view overrides.now) (plain_module of.now.body.now)).ending }
    ensures { Answers result checked_of (c.checked turns (modules_of modules.now) (plain_module of.now.body.now) (map override_view overrides.now)) }
{
    let mut check = begin(alloc);
    check_unrolled(&mut check, turns, modules, of, overrides, steps, fault)?;
    Ok(check)
}
