// Overrides of parameters, by name and by order.
ghost use Rattle.std.specs.Prelude.{◌≡◌, ◌++◌, ◌∷◌, [], map, IfOk};
ghost use Rattle.std.specs.Option.{option_map};
ghost use Rattle.verilog_ast.specs.Views.{expression_of, by_name_of, by_order_of, connections_of};
ghost use Rattle.width_rules.specs.Entries.{scope_of};
ghost use Rattle.ls_text.specs.Answers.{Answers, Leads};
ghost use Rattle.gen_unroll.specs.Values.{constant_of};
ghost use Rattle.gen_unroll.specs.Views.{override_view};
ghost use Rattle.module_names.specs.Listings.{names_behind};
ghost use Rattle.elaborate.specs.Overrides as o;
ghost use Rattle.elaborate.specs.Views.{given_of};

use crate::given_parameters::GivenParameters;
use gen_unroll::evaluated;
use ls_text::{NameId, NoMemory, Place, Refusal};
use module_names::NameOrder;
use std::alloc::Global;
use typed_ir::Const;
use verilog_ast::{Child, Connections, Expr, Identifier, NamedConnection, OrderedConnection};
use width_rules::{Scope, refused, refused_of};

// A value, where a parameter is left for it; 24 at its first token where none is.
fn value_by_order(
    alloc: Global,
    scope: &Scope,
    names: &[Identifier],
    e: &Expr,
) -> Result<Option<Const>, Refusal>
    ensures { Answers result override_view (o.value_by_order (scope_of scope.now) names.now (expression_of e.now)) }
{
    let value = evaluated(alloc, scope, e)?;
    if names.is_empty() {
        Err(refused_of(alloc, 24, e))
    } else {
        Ok(Some(value))
    }
}

// One override by order; an empty one is none.
fn one_by_order(
    alloc: Global,
    scope: &Scope,
    names: &[Identifier],
    value: &Option<Child<Expr>>,
) -> Result<Option<Const>, Refusal>
    ensures { Answers result override_view (o.one_by_order (scope_of scope.now) names.now (option_map expression_of value.now)) }
{
    match value {
        None => Ok(None),
        Some(e) => value_by_order(alloc, scope, names, e.get()),
    }
}

// The names behind the first one.
fn names_behind(names: &[Identifier]) -> &[Identifier]
    ensures { result.now ≡ names_behind names.now }
{
    match names.split_first() {
        Some((_, rest)) => rest,
        None => names,
    }
}

// Overrides by order, each with its value where it has one.
fn by_order(
    alloc: Global,
    scope: &Scope,
    names: &[Identifier],
    all: &[OrderedConnection],
) -> Result<Vec<Option<Const>>, Refusal>
    ensures { Answers result (λ vs. map override_view vs.items) (o.by_order (scope_of scope.now) names.now (map by_order_of all.now) []) }
{
    let mut values = Vec::new(alloc);
    let mut left = names;
    for one in all {
        let value = one_by_order(alloc, scope, left, &one.value)?;
        values.push(value)?;
        left = names_behind(left);
    }
    Ok(values)
}

// A parameter that has no value yet takes one; 24 at the dot where it can't be overridden or has one.
fn if_free(
    alloc: Global,
    names: &NameOrder,
    at: Place,
    name: NameId,
    value: Const,
    given: &mut GivenParameters,
) -> Result<(), Refusal>
    ensures { Leads result (given_of given.new)
        (o.if_free names.now at (record { name = name.0; value = constant_of value }) (given_of given.old)) }
{
    if !names.has(name) {
        return Err(refused(alloc, 24, at, None));
    }
    match given.find(name) {
        Some(_) => Err(refused(alloc, 24, at, None)),
        None => Ok(given.add(name, value)?),
    }
}

// The value of an override by name, at its dot.
fn value_by_name(
    alloc: Global,
    scope: &Scope,
    names: &NameOrder,
    at: Place,
    name: NameId,
    e: &Expr,
    given: &mut GivenParameters,
) -> Result<(), Refusal>
    ensures { Leads result (given_of given.new)
        (o.value_by_name (scope_of scope.now) names.now at name.0 (expression_of e.now) (given_of given.old)) }
{
    let value = evaluated(alloc, scope, e)?;
    if_free(alloc, names, at, name, value, given)
}

// One override by name; an empty one is none.
fn one_by_name(
    alloc: Global,
    scope: &Scope,
    names: &NameOrder,
    at: Place,
    name: NameId,
    value: &Option<Child<Expr>>,
    given: &mut GivenParameters,
) -> Result<(), Refusal>
    ensures { Leads result (given_of given.new)
        (o.one_by_name (scope_of scope.now) names.now at name.0 (option_map expression_of value.now) (given_of given.old)) }
{
    match value {
        None => Ok(()),
        Some(e) => value_by_name(alloc, scope, names, at, name, e.get(), given),
    }
}

fn by_name(
    alloc: Global,
    scope: &Scope,
    names: &NameOrder,
    all: &[NamedConnection],
) -> Result<GivenParameters, Refusal>
    ensures { Answers result given_of (o.by_name (scope_of scope.now) names.now (map by_name_of all.now) []) }
{
    let mut given = GivenParameters::new(alloc);
    for one in all {
        one_by_name(
            alloc,
            scope,
            names,
            one.at,
            one.name.name,
            &one.value,
            &mut given,
        )?;
    }
    Ok(given)
}

// The values that names are given, in the order of the names.
fn values_given(
    alloc: Global,
    names: &[Identifier],
    given: &GivenParameters,
) -> Result<Vec<Option<Const>>, NoMemory>
    ensures { IfOk result (λ vs. map override_view vs.items ≡ map (o.value_given (given_of given.now)) names.now) }
{
    let mut values = Vec::new(alloc);
    for name in names {
        let value = given.find(name.name);
        values.push(value)?;
    }
    Ok(values)
}

/// The overrides of the parameters of these names, in the order of the names (IEEE Std 1364-2005, 12.2.2).
///
/// Faults, override by override: those of its expression, and then 24 BadParam at its first token where it overrides none of them, or one
/// that is overridden already. Else want of memory.
#[tactic(auto, unfolding(crate::specs::Overrides::overridden))]
pub fn overridden(
    alloc: Global,
    scope: &Scope,
    names: &NameOrder,
    overrides: &Option<Connections>,
) -> Result<Vec<Option<Const>>, Refusal>
    ensures { Answers result (λ vs. map override_view vs.items) (o.overridden (scope_of scope.now) names.now (option_map connections_of overrides.now)) }
{
    match overrides {
        None => Ok(Vec::new(alloc)),
        Some(Connections::Ordered(all)) => {
            by_order(alloc, scope, names.as_slice(), all.as_slice())
        },
        Some(Connections::Named(all)) => {
            let given = by_name(alloc, scope, names, all.as_slice())?;
            Ok(values_given(alloc, names.as_slice(), &given)?)
        }
    }
}
