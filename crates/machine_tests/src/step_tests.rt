// The steps of a design with nodes and blocks, counted by hand.
ghost use Rattle.std.specs.Prelude.{◌≡◌, ◌<◌, ◌+◌, IfOk};
ghost use Rattle.cycle_eval.specs.Designs.{work_of};

use crate::designs::{assign, later, made, plus, state_after, values_of};
use cycle_eval::Design;
use ls_text::NoMemory;
use machine::steps::Steps;
use std::alloc::Global;
use std::marker::Brand;
use std::process::Abort;
use std::sync::ledger::{Blank, Ledger};
use std::test::Fail;
use typed_ir::{SignalId, Typed};

// reg [3:0] a = 1; reg [3:0] b = 2; wire [3:0] v = b + 1; wire [3:0] w = v + 1; always @(posedge clk) a <= v; always @(posedge clk) b <= w;
// Two nodes and two blocks are four steps a cycle.
fn two_and_two(rt: &impl Abort, alloc: Global) -> Result<Design, NoMemory>
    ensures { IfOk result (λ design. work_of design ≡ 4) }
{
    let nodes = vec![in alloc;
        assign(alloc, 3, 4, plus(alloc, 2, 4, 1)?)?,
        assign(alloc, 2, 4, plus(alloc, 1, 4, 1)?)?,
    ]?;
    let clocked = vec![in alloc;
        later(alloc, 0, 4, Typed::name(SignalId(2), 4))?,
        later(alloc, 1, 4, Typed::name(SignalId(3), 4))?,
    ]?;
    let list = [(4, 1), (4, 2), (4, 0), (4, 0)];
    made(rt, alloc, &list, &[0, 1], &[], nodes, clocked)
}

// Three cycles of four steps.
fn three_cycles<L: Ledger>(
    alloc: Global,
    design: &Design,
    steps: &mut Steps<L>,
) -> Result<Vec<u128>, NoMemory>
    requires { work_of design.now ≡ 4 }
    ensures { IfOk result (λ _. steps.new ≡ steps.old + 12) }
{
    let state = state_after(alloc, design, 3, steps)?;
    values_of(alloc, &state)
}

fn counted<L: Ledger>(rt: &impl Abort, alloc: Global, blank: Blank) -> Result<Vec<u128>, NoMemory>
    requires name { blank.name ≡ L.name }
    requires parts { blank.parts ≡ L.parts }
    requires some { 0 < blank.parts }
{
    let mut steps = Steps::<L>::start(blank);
    let design = two_and_two(rt, alloc)?;
    three_cycles(alloc, &design, &mut steps)
}

// b goes up by 2 each cycle, and a is the b before and 1.
#[test]
fn twelve_steps(rt: HostRuntime) -> Result<(), Fail> {
    let values = counted::<Brand>(&rt, rt.alloc(), Blank::new(1))?;
    assert_eq!(rt; values.as_slice(), [7, 8].as_slice());
    Ok(())
}
