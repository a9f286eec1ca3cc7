// A module to its steps: its header, and then its items with loops and branches unrolled in place.
ghost use Rattle.std.specs.Prelude.{◌≡◌, ◌+◌, ◌++◌, ◌∷◌, [], map, None, IfOk, OnOk};
ghost use Rattle.std.specs.Option.{option_map};
ghost use Rattle.verilog_ast.specs.Views.{expression_of, parameter_of, header_parameter_of, kind_of, port_of, ports_of, plain_item_of, generate_item_of, branch_of, head_of, item_of, items_of, declaration_of};
ghost use Rattle.width_rules.specs.Entries.{scope_of, around};
ghost use Rattle.gen_unroll.specs.Steps.{Listed, Port, Labelled, Opened, blocks_in};
ghost use Rattle.gen_unroll.specs.Told.{fault_in};
ghost use Rattle.gen_unroll.specs.Unrolled as u;
ghost use Rattle.ls_text.specs.Answers.{Answers};
ghost use Rattle.gen_unroll.specs.Values.{constant_of, evaluated};
ghost use Rattle.gen_unroll.specs.Views.{state_of, steps_of, step_of, block_of, turn_of, here_of, parameter_type_of, override_view, Goes};

use crate::block::Block;
use crate::block_id::BlockId;
use crate::constants::evaluated;
use crate::looping::{holds, loop_turns};
use crate::naming::{declare_module_items, declare_ports, open_block};
use crate::parameter_sort::ParameterSort;
use crate::parameter_type::ParameterType;
use crate::parameters::{as_declared, parameter_type};
use crate::step::Step;
use crate::telling::{enter, next_override, tell};
use crate::turn::Turn;
use crate::unrolled::Unrolled;
use crate::walk::Walk;
use ls_text::{Fault, NoMemory, Place, Refusal};
use std::alloc::Global;
use typed_ir::Const;
use verilog_ast::{
    Branch, GenerateItem, HeaderParameter, HeaderPort, Identifier, Item, Loop, ModuleBody,
    Parameter, PlainItem, Ports, Shape,
};
use width_rules::{Entry, Scope};

/// How many turns the loops of a module may have together.
pub const TURN_LIMIT: u32 = 65_536;

// The value that is given for a parameter, else that of its own expression.
#[tactic(auto, using(crate::proofs::Values::answers))]
fn value_of(
    w: &mut Walk<'_, '_>,
    sort: ParameterSort,
    parameter: &Parameter,
) -> Result<Const, Refusal>
    ensures value { Answers result constant_of (u.given_or (u.override_of sort (state_of w.old)) (evaluated (state_of w.old).scope (expression_of parameter.now.value))) }
    ensures steps { steps_of w.new ≡ steps_of w.old }
    ensures state { state_of w.new ≡ u.behind sort (state_of w.old) }
    ensures around { around w.new.scope ≡ around w.old.scope }
{
    match next_override(w, sort) {
        Some(value) => Ok(value),
        None => evaluated(w.alloc, &w.scope, parameter.value.get()),
    }
}

// A parameter: its value as its declaration makes it.
#[tactic(auto, unfolding(crate::specs::Unrolled::parameter), using(crate::proofs::Comings::quiet_ok, crate::proofs::Comings::quiet_refused, crate::proofs::Comings::say_goes))]
fn parameter(
    w: &mut Walk<'_, '_>,
    sort: ParameterSort,
    kind: ParameterType,
    parameter: &Parameter,
) -> Result<(), Refusal>
    ensures goes { Goes w.old w.new result (u.parameter sort (parameter_type_of kind) (parameter_of parameter.now) (state_of w.old)) }
    ensures around { OnOk result (around w.new.scope ≡ around w.old.scope) }
{
    let value = as_declared(kind, value_of(w, sort, parameter)?);
    tell(w, Step::Parameter(sort, parameter.name, value))?;
    enter(w, parameter.name, Entry::Constant(value))?;
    Ok(())
}

// Parameters of one declaration. Their range is evaluated once.
#[tactic(auto, using(crate::proofs::Comings::quiet_ok, crate::proofs::Comings::quiet_refused, crate::proofs::Lefts::lefts, crate::proofs::Listing::each_next, crate::proofs::Listing::each_none, crate::proofs::Blocks::goes_as))]
fn parameters(
    w: &mut Walk<'_, '_>,
    sort: ParameterSort,
    shape: &Shape,
    all: &[Parameter],
) -> Result<(), Refusal>
    ensures goes { Goes w.old w.new result (u.parameters sort (kind_of shape.now) (map parameter_of all.now) (state_of w.old)) }
    ensures around { OnOk result (around w.new.scope ≡ around w.old.scope) }
{
    let kind = parameter_type(w.alloc, &w.scope, shape)?;
    for one in all {
        match parameter(w, sort, kind, one) {
            Ok(()) => {}
            Err(refusal) => return Err(refusal),
        }
    }
    Ok(())
}

// The declaration of a header's parameter: that of the one before where it has none.
fn next_type(
    w: &Walk<'_, '_>,
    before: ParameterType,
    shape: &Option<Shape>,
) -> Result<ParameterType, Refusal>
    ensures { Answers result parameter_type_of (u.next_type (scope_of w.now.scope) (parameter_type_of before) (option_map kind_of shape.now)) }
{
    match shape {
        None => Ok(before),
        Some(shape) => parameter_type(w.alloc, &w.scope, shape),
    }
}

// The parameters of a header.
#[tactic(auto, using(crate::proofs::Comings::quiet_refused, crate::proofs::Lefts::lefts, crate::proofs::Listing::header_next, crate::proofs::Listing::header_quiet, crate::proofs::Listing::header_none))]
fn header_parameters(w: &mut Walk<'_, '_>, all: &[HeaderParameter]) -> Result<(), Refusal>
    ensures goes { Goes w.old w.new result (u.header_parameters u.untyped (map header_parameter_of all.now) (state_of w.old)) }
    ensures around { OnOk result (around w.new.scope ≡ around w.old.scope) }
{
    let mut kind = ParameterType {
        range: None,
        signed: false,
    };
    for one in all {
        kind = match next_type(w, kind, &one.shape) {
            Ok(kind) => kind,
            Err(refusal) => return Err(refusal),
        };
        match parameter(w, ParameterSort::Overridable, kind, &one.parameter) {
            Ok(()) => {}
            Err(refusal) => return Err(refusal),
        }
    }
    Ok(())
}

// The names of a header that lists its ports.
fn listed(w: &mut Walk<'_, '_>, names: &[Identifier]) -> Result<(), NoMemory>
    ensures steps { OnOk result (steps_of w.new ≡ steps_of w.old ++ map Listed names.now) }
    ensures state { OnOk result (state_of w.new ≡ state_of w.old) }
    ensures around { OnOk result (around w.new.scope ≡ around w.old.scope) }
{
    for name in names {
        tell(w, Step::Listed(*name))?;
    }
    Ok(())
}

// The ports that a header declares.
fn declared<'a>(w: &mut Walk<'a, '_>, ports: &'a [HeaderPort]) -> Result<(), NoMemory>
    ensures steps { OnOk result (steps_of w.new ≡ steps_of w.old ++ map Port (map port_of ports.now)) }
    ensures state { OnOk result (state_of w.new ≡ state_of w.old) }
    ensures around { OnOk result (around w.new.scope ≡ around w.old.scope) }
{
    for port in ports {
        tell(w, Step::Port(port))?;
    }
    Ok(())
}

// The ports of a header.
fn ports<'a>(w: &mut Walk<'a, '_>, ports: &'a Ports) -> Result<(), NoMemory>
    ensures steps { OnOk result (steps_of w.new ≡ steps_of w.old ++ u.port_steps (ports_of ports.now)) }
    ensures state { OnOk result (state_of w.new ≡ state_of w.old) }
    ensures around { OnOk result (around w.new.scope ≡ around w.old.scope) }
{
    match ports {
        Ports::Nothing => Ok(()),
        Ports::Names(names) => listed(w, names.as_slice()),
        Ports::Declarations(ports) => declared(w, ports.as_slice()),
    }
}

// The number of the next block.
fn next_number(w: &mut Walk<'_, '_>) -> Result<BlockId, NoMemory>
    ensures number { IfOk result (λ number. number.0 ≡ w.old.opened) }
    ensures steps { steps_of w.new ≡ steps_of w.old }
    ensures state { IfOk result (λ _. state_of w.new ≡ record (state_of w.old) { opened = w.old.opened + 1 }) }
    ensures around { around w.new.scope ≡ around w.old.scope }
{
    let number = w.opened;
    match number.checked_add(1) {
        Some(opened) => {
            w.opened = opened;
            Ok(BlockId(number))
        }
        None => Err(NoMemory),
    }
}

// A block is opened, in which the names of its turn and of its items are known; its number.
fn opened<'a>(
    w: &mut Walk<'a, '_>,
    parent: Option<BlockId>,
    label: Identifier,
    turn: Option<Turn>,
    items: &'a [GenerateItem],
) -> Result<BlockId, NoMemory>
    ensures number { IfOk result (λ number. number.0 ≡ w.old.opened) }
    ensures steps { IfOk result (λ _. steps_of w.new ≡ steps_of w.old ++ Opened (record { number = w.old.opened; parent = here_of parent; label = label; turn = option_map turn_of turn }) (items_of (map generate_item_of items.now)) ∷ []) }
    ensures state { IfOk result (λ _. state_of w.new ≡ u.inside (option_map turn_of turn) (items_of (map generate_item_of items.now)) (state_of w.old)) }
    ensures around { IfOk result (λ _. around w.new.scope ≡ (state_of w.old).scope ∷ around w.old.scope) }
{
    let number = next_number(w)?;
    tell(
        w,
        Step::Open(
            Block {
                number,
                parent,
                label,
                turn,
            },
            items,
        ),
    )?;
    open_block(&mut w.scope, turn, items)?;
    Ok(number)
}

// A block with its items; then the names outside come back.
#[tactic(auto, using(crate::proofs::Blocks::block_goes, crate::proofs::Blocks::block_refused))]
#[cycle(walk)]
fn block<'a>(
    w: &mut Walk<'a, '_>,
    parent: Option<BlockId>,
    items: &'a [GenerateItem],
    label: Identifier,
    turn: Option<Turn>,
) -> Result<(), Refusal>
    ensures goes { Goes w.old w.new result (u.block_with (u.unrolled (items_of (map generate_item_of items.now))) (items_of (map generate_item_of items.now)) (here_of parent) label (option_map turn_of turn) (state_of w.old)) }
    ensures around { OnOk result (around w.new.scope ≡ around w.old.scope) }
{
    let number = opened(w, parent, label, turn, items)?;
    generate_items(w, Some(number), items)?;
    w.scope.close_block();
    tell(w, Step::Close)?;
    Ok(())
}

// A label, which is no name that an expression can use.
fn labelled(w: &mut Walk<'_, '_>, label: Identifier) -> Result<(), NoMemory>
    ensures steps { OnOk result (steps_of w.new ≡ steps_of w.old ++ Labelled label ∷ []) }
    ensures state { OnOk result (state_of w.new ≡ u.labelled label (state_of w.old)) }
    ensures around { OnOk result (around w.new.scope ≡ around w.old.scope) }
{
    tell(w, Step::Label(label))?;
    enter(w, label, Entry::Unknown)
}

// The blocks of a loop's turns.
#[tactic(auto, using(crate::proofs::Lefts::lefts, crate::proofs::Listing::each_next, crate::proofs::Listing::each_none))]
#[cycle(walk)]
fn turns<'a>(
    w: &mut Walk<'a, '_>,
    parent: Option<BlockId>,
    items: &'a [GenerateItem],
    genvar: Identifier,
    label: Identifier,
    values: &[Const],
) -> Result<(), Refusal>
    ensures goes { Goes w.old w.new result (u.each (u.turn_with (u.unrolled (items_of (map generate_item_of items.now))) (items_of (map generate_item_of items.now)) genvar label (here_of parent)) (map constant_of values.now) (state_of w.old)) }
    ensures around { OnOk result (around w.new.scope ≡ around w.old.scope) }
{
    for value in values {
        let turn = Turn {
            genvar,
            value: *value,
        };
        match block(w, parent, items, label, Some(turn)) {
            Ok(()) => {}
            Err(refusal) => return Err(refusal),
        }
    }
    Ok(())
}

// A loop: its turns are counted, then its label stands, and then its blocks.
#[tactic(auto, using(crate::proofs::Comings::quiet_refused, crate::proofs::Blocks::loop_through))]
#[cycle(walk)]
fn generate_loop<'a>(
    w: &mut Walk<'a, '_>,
    parent: Option<BlockId>,
    items: &'a [GenerateItem],
    at: Place,
    head: &'a Loop,
    label: Identifier,
) -> Result<(), Refusal>
    ensures goes { Goes w.old w.new result (u.loop_with (u.unrolled (items_of (map generate_item_of items.now))) (items_of (map generate_item_of items.now)) at (head_of head.now) label (here_of parent) (state_of w.old)) }
    ensures around { OnOk result (around w.new.scope ≡ around w.old.scope) }
{
    let values = loop_turns(w.alloc, &mut w.scope, at, head, w.left)?;
    w.left -= values.len() as u32;
    labelled(w, label)?;
    turns(w, parent, items, head.start.name, label, &values)
}

// Whether a branch is taken: a last `else` without a condition always is.
fn is_taken(w: &Walk<'_, '_>, branch: &Branch) -> Result<bool, Refusal>
    ensures { Answers result (λ b. b) (u.is_taken (scope_of w.now.scope) (option_map expression_of branch.now.condition)) }
{
    match &branch.condition {
        None => Ok(true),
        Some(condition) => holds(w.alloc, &w.scope, condition.get()),
    }
}

// A branch that is taken: its label, and its block.
#[tactic(auto, using(crate::proofs::Blocks::taken_through))]
#[cycle(walk)]
fn taken<'a>(
    w: &mut Walk<'a, '_>,
    parent: Option<BlockId>,
    branch: &'a Branch,
) -> Result<(), Refusal>
    ensures goes { Goes w.old w.new result (u.taken_with (u.unrolled (items_of (map generate_item_of branch.now.items))) (items_of (map generate_item_of branch.now.items)) branch.now.label (here_of parent) (state_of w.old)) }
    ensures around { OnOk result (around w.new.scope ≡ around w.old.scope) }
{
    labelled(w, branch.label)?;
    block(w, parent, branch.items.as_slice(), branch.label, None)
}

// The first branch that is taken.
#[tactic(auto, using(crate::proofs::Comings::quiet_refused, crate::proofs::Blocks::goes_from, crate::proofs::Listing::chosen_first, crate::proofs::Listing::chosen_later, crate::proofs::Listing::chosen_quiet, crate::proofs::Listing::chosen_none))]
#[cycle(walk)]
fn branches<'a>(
    w: &mut Walk<'a, '_>,
    parent: Option<BlockId>,
    all: &'a [Branch],
) -> Result<(), Refusal>
    ensures goes { Goes w.old w.new result (u.chosen (items_of (map branch_of all.now)) (here_of parent) (state_of w.old)) }
    ensures around { OnOk result (around w.new.scope ≡ around w.old.scope) }
{
    for branch in all {
        let yes = match is_taken(w, branch) {
            Ok(yes) => yes,
            Err(refusal) => return Err(refusal),
        };
        if yes {
            return taken(w, parent, branch);
        }
    }
    Ok(())
}

// An item without a generate construct.
#[tactic(auto, using(crate::proofs::Comings::say_goes))]
fn plain_item<'a>(w: &mut Walk<'a, '_>, item: &'a PlainItem) -> Result<(), Refusal>
    ensures goes { Goes w.old w.new result (u.plain (plain_item_of item.now) (state_of w.old)) }
    ensures around { OnOk result (around w.new.scope ≡ around w.old.scope) }
{
    match item {
        PlainItem::LocalParameter(_, shape, all) => {
            parameters(w, ParameterSort::Local, shape, all.as_slice())
        }
        PlainItem::Wire(_, _, _)
        | PlainItem::Reg(_, _, _)
        | PlainItem::Genvar(_, _)
        | PlainItem::Assign(_, _)
        | PlainItem::Combinational(_, _)
        | PlainItem::Clocked(_, _, _)
        | PlainItem::Instances(_, _, _) => {
            tell(w, Step::Item(item))?;
            Ok(())
        }
    }
}

// An item that may stand in a generate block.
#[tactic(auto, using(crate::proofs::Blocks::goes_as, crate::proofs::Blocks::item_plain, crate::proofs::Blocks::item_loop, crate::proofs::Blocks::item_if))]
#[cycle(walk)]
fn generate_item<'a>(
    w: &mut Walk<'a, '_>,
    parent: Option<BlockId>,
    item: &'a GenerateItem,
) -> Result<(), Refusal>
    ensures goes { Goes w.old w.new result (u.unrolled (generate_item_of item.now) (here_of parent) (state_of w.old)) }
    ensures around { OnOk result (around w.new.scope ≡ around w.old.scope) }
{
    match item {
        GenerateItem::Plain(item) => plain_item(w, item),
        GenerateItem::For(at, head, label, items) => {
            generate_loop(w, parent, items.as_slice(), *at, head, *label)
        }
        GenerateItem::If(all) => branches(w, parent, all.as_slice()),
    }
}

// Items in the block with this number, or in the module itself.
#[tactic(auto, using(crate::proofs::Lefts::lefts, crate::proofs::Listing::items_next, crate::proofs::Listing::items_none))]
#[cycle(walk)]
fn generate_items<'a>(
    w: &mut Walk<'a, '_>,
    parent: Option<BlockId>,
    items: &'a [GenerateItem],
) -> Result<(), Refusal>
    ensures goes { Goes w.old w.new result (u.unrolled (items_of (map generate_item_of items.now)) (here_of parent) (state_of w.old)) }
    ensures around { OnOk result (around w.new.scope ≡ around w.old.scope) }
{
    for item in items {
        match generate_item(w, parent, item) {
            Ok(()) => {}
            Err(refusal) => return Err(refusal),
        }
    }
    Ok(())
}

// An item of a module.
#[tactic(auto, unfolding(crate::specs::Unrolled::unrolled), using(crate::proofs::Comings::say_goes, crate::proofs::Blocks::goes_as))]
fn module_item<'a>(w: &mut Walk<'a, '_>, item: &'a Item) -> Result<(), Refusal>
    ensures { Goes w.old w.new result (u.unrolled (item_of item.now) None (state_of w.old)) }
{
    match item {
        Item::Input(at, net, shape, names) => {
            tell(w, Step::Inputs(*at, *net, shape, names.as_slice()))?;
            Ok(())
        }
        Item::Output(at, net, shape, ports) => {
            tell(w, Step::Outputs(*at, *net, shape, ports.as_slice()))?;
            Ok(())
        }
        Item::Parameter(_, shape, all) => {
            parameters(w, ParameterSort::Overridable, shape, all.as_slice())
        }
        Item::Region(_, items) => generate_items(w, None, items.as_slice()),
        Item::Item(item) => generate_item(w, None, item),
    }
}

// The items of a module.
#[tactic(auto, using(crate::proofs::Lefts::lefts, crate::proofs::Listing::items_next, crate::proofs::Listing::items_none))]
fn module_items<'a>(w: &mut Walk<'a, '_>, items: &'a [Item]) -> Result<(), Refusal>
    ensures { Goes w.old w.new result (u.unrolled (items_of (map item_of items.now)) None (state_of w.old)) }
{
    for item in items {
        match module_item(w, item) {
            Ok(()) => {}
            Err(refusal) => return Err(refusal),
        }
    }
    Ok(())
}

// The header, and then the items.
#[tactic(auto, using(crate::proofs::Comings::then_goes, crate::proofs::Comings::say_all_then, crate::proofs::Comings::refused_first, crate::proofs::Blocks::goes_through))]
fn body<'a>(w: &mut Walk<'a, '_>, of: &'a ModuleBody) -> Result<(), Refusal>
    ensures { Goes w.old w.new result (u.module_told (declaration_of of.now) (state_of w.old)) }
{
    header_parameters(w, of.parameters.as_slice())?;
    ports(w, &of.ports)?;
    module_items(w, of.items.as_slice())
}

// The names of a module itself, in which its walk begins.
fn begin<'a, 'o>(
    alloc: Global,
    of: &ModuleBody,
    overrides: &'o [Option<Const>],
    limit: u32,
) -> Result<Walk<'a, 'o>, NoMemory>
    ensures steps { IfOk result (λ w. steps_of w ≡ []) }
    ensures state { IfOk result (λ w. state_of w ≡ u.beginning limit (map override_view overrides.now) (declaration_of of.now)) }
{
    let mut scope = Scope::new(alloc);
    declare_ports(&mut scope, &of.ports)?;
    declare_module_items(&mut scope, of.items.as_slice())?;
    Ok(Walk {
        alloc,
        scope,
        overrides,
        opened: 0,
        left: limit,
        steps: Vec::new(alloc),
    })
}

// The blocks that steps open.
fn blocks_in(alloc: Global, steps: &[Step<'_>]) -> Result<Vec<Block>, NoMemory>
    ensures { IfOk result (λ blocks. map block_of blocks.items ≡ blocks_in (map step_of steps.now)) }
{
    let mut blocks = Vec::new(alloc);
    for step in steps {
        if let Step::Open(block, _) = step {
            blocks.push(*block)?;
        }
    }
    Ok(blocks)
}

/// The same as `unroll`, with so many turns.
#[tactic(auto, unfolding(crate::specs::Unrolled::unrolled_module))]
pub fn unroll_within<'a>(
    alloc: Global,
    of: &'a ModuleBody,
    overrides: &[Option<Const>],
    limit: u32,
) -> Result<Unrolled<'a>, NoMemory>
    ensures steps { IfOk result (λ x. map step_of x.steps.items ≡ (u.unrolled_module limit (map override_view overrides.now) (declaration_of of.now)).said) }
    ensures blocks { IfOk result (λ x. map block_of x.blocks.items ≡ blocks_in (u.unrolled_module limit (map override_view overrides.now) (declaration_of of.now)).said) }
    ensures fault { IfOk result (λ x. x.fault ≡ fault_in (u.unrolled_module limit (map override_view overrides.now) (declaration_of of.now)).ending) }
{
    let mut w = begin(alloc, of, overrides, limit)?;
    let fault = match body(&mut w, of) {
        Ok(()) => None,
        Err(Refusal::Fault(fault)) => Some(fault),
        Err(Refusal::NoMemory) => return Err(NoMemory),
    };
    let blocks = blocks_in(alloc, &w.steps)?;
    Ok(Unrolled {
        steps: w.steps,
        blocks,
        fault,
    })
}

/// A module with its loops and branches unrolled in place: its steps up to its first fault.
#[tactic(auto, unfolding(crate::specs::Unrolled::turn_limit))]
pub fn unroll<'a>(
    alloc: Global,
    of: &'a ModuleBody,
    overrides: &[Option<Const>],
) -> Result<Unrolled<'a>, NoMemory>
    ensures steps { IfOk result (λ x. map step_of x.steps.items ≡ (u.unrolled_module u.turn_limit (map override_view overrides.now) (declaration_of of.now)).said) }
    ensures blocks { IfOk result (λ x. map block_of x.blocks.items ≡ blocks_in (u.unrolled_module u.turn_limit (map override_view overrides.now) (declaration_of of.now)).said) }
    ensures fault { IfOk result (λ x. x.fault ≡ fault_in (u.unrolled_module u.turn_limit (map override_view overrides.now) (declaration_of of.now)).ending) }
{
    unroll_within(alloc, of, overrides, TURN_LIMIT)
}
