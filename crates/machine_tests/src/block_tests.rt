// A combinational block whose temporary is written twice and then read, worked out by hand.
ghost use Rattle.std.specs.Prelude.{◌≡◌, ◌<◌, IfOk};
ghost use Rattle.typed_ir.specs.FlatNodes.{node_of};
ghost use Rattle.typed_ir.specs.Nodes.{Block};
ghost use Rattle.typed_ir.specs.Statements.{stmt_of};
ghost use Rattle.typed_ir.specs.Stmts.{Assign};
ghost use Rattle.typed_ir.specs.Forms.{sized};
ghost use Rattle.typed_ir.specs.declared.arithmetic_operator.ArithmeticOperator.TheVariants.{Sum, Xor};
ghost use Rattle.typed_ir.specs.declared.binary_operator.BinaryOperator.TheVariants.{Arithmetic};
ghost use Rattle.typed_ir.specs.declared.target_form.TargetForm.TheVariants.{Name as Shown};
ghost use Rattle.machine_tests.specs.Temporary.{all_of, temporary};

use crate::designs::{design_with, later, signals, state_after, top, values_of, whole};
use bits::Bits;
use comb_order::Parts;
use cycle_eval::Design;
use ls_text::NoMemory;
use machine::steps::Steps;
use std::alloc::Global;
use std::marker::Brand;
use std::process::Abort;
use std::sync::ledger::{Blank, Ledger};
use std::test::Fail;
use typed_ir::{
    ArithmeticOperator, BinaryOperator, Node, ShownTarget, SignalId, Stmt, Target, TargetForm,
    Typed,
};

// SIGNAL = E;
fn now(alloc: Global, signal: u32, e: Typed) -> Result<Stmt, NoMemory>
    ensures { IfOk result (λ st. stmt_of st ≡ Assign (all_of signal) (sized e.form)) }
{
    let mut parts = Vec::new(alloc);
    parts.push(Target::Fixed(whole(signal, 4)))?;
    Ok(Stmt::Assign {
        targets: parts,
        value: e,
    })
}

// always @* begin t = q + 1; t = t ^ 6; y = t; end
fn block(alloc: Global) -> Result<Node, NoMemory>
    ensures { IfOk result (λ n. node_of n ≡ Block (record { number = 0; form = Shown }) (temporary (Arithmetic Sum) (Arithmetic Xor))) }
{
    let sum = BinaryOperator::Arithmetic(ArithmeticOperator::Sum);
    let xor = BinaryOperator::Arithmetic(ArithmeticOperator::Xor);
    let one = Typed::constant(Bits::new(4, 1));
    let six = Typed::constant(Bits::new(4, 6));
    let more = Typed::binary(alloc, sum, Typed::name(SignalId(0), 4), one)?;
    let mixed = Typed::binary(alloc, xor, Typed::name(SignalId(1), 4), six)?;
    let body = vec![in alloc;
        now(alloc, 1, more)?,
        now(alloc, 1, mixed)?,
        now(alloc, 2, Typed::name(SignalId(1), 4))?,
    ]?;
    Ok(Node::Block {
        shown: ShownTarget {
            number: 0,
            form: TargetForm::Name,
        },
        body: Stmt::Sequence(body),
    })
}

// reg [3:0] q = 4; reg [3:0] t, y; the block; always @(posedge clk) q <= y;
fn design(rt: &impl Abort, alloc: Global) -> Result<Design, NoMemory> {
    let nodes = vec![in alloc; block(alloc)?]?;
    let parts = Parts {
        instances: top(alloc)?,
        signals: signals(rt, alloc, &[(4, 4), (4, 0), (4, 0)])?,
        registers: vec![in alloc; SignalId(0)]?,
        inputs: Vec::new(alloc),
        nodes,
        clocked: vec![in alloc; later(alloc, 0, 4, Typed::name(SignalId(2), 4))?]?,
    };
    design_with(rt, alloc, parts)
}

// The registers after so many cycles.
fn counted<L: Ledger>(
    alloc: Global,
    design: &Design,
    cycles: u64,
    blank: Blank,
) -> Result<Vec<u128>, NoMemory>
    requires name { blank.name ≡ L.name }
    requires parts { blank.parts ≡ L.parts }
    requires some { 0 < blank.parts }
{
    let mut steps = Steps::<L>::start(blank);
    let state = state_after(alloc, design, cycles, &mut steps)?;
    values_of(alloc, &state)
}

fn after(alloc: Global, design: &Design, cycles: u64) -> Result<Vec<u128>, NoMemory> {
    counted::<Brand>(alloc, design, cycles, Blank::new(1))
}

#[test]
fn a_block_with_a_temporary(rt: HostRuntime) -> Result<(), Fail> {
    let alloc = rt.alloc();
    let design = design(&rt, alloc)?;
    // 5 ^ 6 is 3, 4 ^ 6 is 2, 3 ^ 6 is 5, 6 ^ 6 is 0, and 1 ^ 6 is 7.
    let table = [(0, 4), (1, 3), (2, 2), (3, 5), (4, 0), (5, 7)];
    for (cycles, wanted) in table {
        let values = after(alloc, &design, cycles)?;
        assert_eq!(rt;
            values.as_slice(),
            [wanted].as_slice(),
            "after {cycles} cycles"
        );
    }
    Ok(())
}
