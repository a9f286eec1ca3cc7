// Orders and loops of small designs, worked out by hand, and of a long chain.
ghost use Rattle.std.specs.Prelude.{◌≡◌};

use bits::Bits;
use comb_order::{OrderRefusal, Parts, checked_flat, no_block, order};
use ls_text::{NameId, NoMemory};
use std::alloc::Global;
use std::process::Abort;
use std::test::Fail;
use typed_ir::{
    ArithmeticOperator, BinaryOperator, Flat, InstanceId, InstanceTable, Lane, Node, NodeId,
    Signal, SignalId, Span, TargetForm, Typed, UnaryOperator,
};

pub fn bit(number: u32, low: u8) -> Span
    ensures width { result.width ≡ 1 }
    ensures low { result.low ≡ low }
{
    Span {
        signal: SignalId(number),
        low,
        width: 1,
    }
}

// A continuous assignment to these bits.
pub fn assign(alloc: Global, span: Span, e: Typed) -> Result<Node, NoMemory> {
    let mut lanes = Vec::new(alloc);
    lanes.push(Lane { shift: 0, span })?;
    Ok(Node::Drive {
        form: TargetForm::Bit,
        lanes,
        value: e,
    })
}

// assign TO = FROM; both of one bit, for each pair
pub fn copies(alloc: Global, pairs: &[(u32, u32)]) -> Result<Vec<Node>, NoMemory> {
    let mut nodes = Vec::new(alloc);
    for (to, from) in pairs {
        nodes.push(assign(alloc, bit(*to, 0), Typed::name(SignalId(*from), 1))?)?;
    }
    Ok(nodes)
}

// assign TO = ~FROM; both of one bit, for each pair
pub fn inverses(alloc: Global, pairs: &[(u32, u32)]) -> Result<Vec<Node>, NoMemory> {
    let mut nodes = Vec::new(alloc);
    for (to, from) in pairs {
        let name = Typed::name(SignalId(*from), 1);
        let value = Typed::unary(alloc, UnaryOperator::Inverse, name)?;
        nodes.push(assign(alloc, bit(*to, 0), value)?)?;
    }
    Ok(nodes)
}

// assign TO = 1'b0; of one bit
pub fn tied(alloc: Global, to: u32) -> Result<Node, NoMemory> {
    assign(alloc, bit(to, 0), Typed::constant(Bits::new(1, 0)))
}

// assign TO[I] = FROM[J]; for each line of the table: TO, I, FROM and J
pub fn bit_copies(
    rt: &impl Abort,
    alloc: Global,
    table: &[(u32, u8, u32, u8)],
) -> Result<Vec<Node>, NoMemory> {
    let mut nodes = Vec::new(alloc);
    for (to, i, from, j) in table {
        assert!(rt; *j < 128);
        nodes.push(assign(alloc, bit(*to, *i), Typed::part(bit(*from, *j)))?)?;
    }
    Ok(nodes)
}

// The numbers of these nodes.
fn numbers(alloc: Global, nodes: &[NodeId]) -> Result<Vec<u32>, NoMemory> {
    let mut all = Vec::new(alloc);
    for node in nodes {
        all.push(node.number())?;
    }
    Ok(all)
}

// A signal of so many bits in an instance.
pub fn signal(rt: &impl Abort, instance: u32, number: usize, width: u8) -> Signal {
    assert!(rt; 1 <= width && width <= 128);
    Signal {
        in_module: NameId(0),
        instance: InstanceId(instance),
        name: NameId(number as u64),
        lsb: 0,
        signed: false,
        width,
        initial: 0,
    }
}

// The design of these parts.
#[tactic(auto, using(comb_order::proofs::Flatten::complete_of, comb_order::proofs::Flatten::first_of))]
pub fn design_of(rt: &impl Abort, alloc: Global, parts: Parts) -> Result<Flat, NoMemory> {
    assert!(rt; no_block(&parts.nodes));
    assert!(rt; parts.nodes.len() < 1_000_000);
    Ok(checked_flat(alloc, parts)?.expect(rt, "a design"))
}

// What the order of a design with these instances, signals and nodes is: true and an order, or false and the loop.
pub fn order_within(
    rt: &impl Abort,
    alloc: Global,
    instances: InstanceTable,
    signals: Vec<Signal>,
    nodes: Vec<Node>,
) -> Result<(bool, Vec<u32>), NoMemory> {
    let parts = Parts {
        instances,
        signals,
        registers: Vec::new(alloc),
        inputs: Vec::new(alloc),
        nodes,
        clocked: Vec::new(alloc),
    };
    match order(alloc, &design_of(rt, alloc, parts)?) {
        Ok(order) => Ok((true, numbers(alloc, &order)?)),
        Err(OrderRefusal::Loop(circle)) => Ok((false, numbers(alloc, circle.nodes())?)),
        Err(OrderRefusal::NoMemory) => Err(NoMemory),
    }
}

// The same of one instance with signals of these widths.
fn answer(
    rt: &impl Abort,
    alloc: Global,
    widths: &[u8],
    nodes: Vec<Node>,
) -> Result<(bool, Vec<u32>), NoMemory> {
    let mut signals = Vec::new(alloc);
    for width in widths {
        signals.push(signal(rt, 0, signals.len(), *width))?;
    }
    let top = InstanceTable::of_top(alloc, NameId(0))?;
    order_within(rt, alloc, top, signals, nodes)
}

// That this is the order.
fn expect_order(
    rt: &impl Abort,
    alloc: Global,
    widths: &[u8],
    nodes: Vec<Node>,
    wanted: &[u32],
) -> Result<(), NoMemory> {
    let (placed, list) = answer(rt, alloc, widths, nodes)?;
    assert!(rt; placed);
    assert_eq!(rt; list.as_slice(), wanted);
    Ok(())
}

// That this is the loop.
fn expect_loop(
    rt: &impl Abort,
    alloc: Global,
    widths: &[u8],
    nodes: Vec<Node>,
    wanted: &[u32],
) -> Result<(), NoMemory> {
    let (placed, list) = answer(rt, alloc, widths, nodes)?;
    assert!(rt; !placed);
    assert_eq!(rt; list.as_slice(), wanted);
    Ok(())
}

#[test]
fn a_chain_written_backwards(rt: HostRuntime) -> Result<(), Fail> {
    let nodes = inverses(rt.alloc(), &[(3, 2), (2, 1), (1, 0)])?;
    expect_order(&rt, rt.alloc(), &[1; 4], nodes, &[2, 1, 0])?;
    Ok(())
}

// Chains stand one behind the other, as they are written or backwards; and of nodes that can be next, which all read, the least number is.
#[test]
fn least_number_first(rt: HostRuntime) -> Result<(), Fail> {
    // what each node drives and what it reads; and the order
    let table = [
        (
            [(1, 0), (2, 1), (3, 2), (5, 4), (6, 5), (7, 6)],
            [0, 1, 2, 3, 4, 5],
        ),
        (
            [(3, 2), (2, 1), (1, 0), (7, 6), (6, 5), (5, 4)],
            [2, 1, 0, 5, 4, 3],
        ),
        (
            [(1, 0), (2, 1), (3, 1), (4, 2), (5, 3), (7, 6)],
            [0, 1, 2, 3, 4, 5],
        ),
    ];
    for (pairs, wanted) in table {
        let nodes = inverses(rt.alloc(), &pairs)?;
        expect_order(&rt, rt.alloc(), &[1; 8], nodes, &wanted)?;
    }
    Ok(())
}

// assign TO = ONE & OTHER; all of one bit
pub fn join(alloc: Global, to: u32, one: u32, other: u32) -> Result<Node, NoMemory> {
    let both = BinaryOperator::Arithmetic(ArithmeticOperator::And);
    let value = Typed::binary(
        alloc,
        both,
        Typed::name(SignalId(one), 1),
        Typed::name(SignalId(other), 1),
    )?;
    assign(alloc, bit(to, 0), value)
}

// assign s1 = s0, s2 = s0, s3 = s1 & s2;
#[test]
fn two_ways_that_join(rt: HostRuntime) -> Result<(), Fail> {
    let alloc = rt.alloc();
    let mut nodes = copies(alloc, &[(1, 0), (2, 0)])?;
    nodes.push(join(alloc, 3, 1, 2)?)?;
    let (placed, list) = answer(&rt, alloc, &[1; 4], nodes)?;
    assert!(rt; placed && list.len() == 3);
    assert_eq!(rt; list[2], 2);
    Ok(())
}

// assign s1 = s0, s2 = s1 & s5, s3 = s2; assign s4 = s0, s5 = s4; what waits for the other chain stands behind it.
#[test]
fn one_that_waits_for_another_chain(rt: HostRuntime) -> Result<(), Fail> {
    let alloc = rt.alloc();
    let mut nodes = copies(alloc, &[(1, 0)])?;
    nodes.push(join(alloc, 2, 1, 5)?)?;
    for node in copies(alloc, &[(3, 2), (4, 0), (5, 4)])? {
        nodes.push(node)?;
    }
    expect_order(&rt, alloc, &[1; 6], nodes, &[0, 3, 4, 1, 2])?;
    Ok(())
}

// assign s1[2] = s1[1], s1[1] = s1[0], s1[0] = s0;
#[test]
fn a_bus_bit_by_bit(rt: HostRuntime) -> Result<(), Fail> {
    let nodes = bit_copies(&rt, rt.alloc(), &[(1, 2, 1, 1), (1, 1, 1, 0), (1, 0, 0, 0)])?;
    expect_order(&rt, rt.alloc(), &[1, 3], nodes, &[2, 1, 0])?;
    Ok(())
}

// assign c[1] = c[0], c[0] = d[0];
#[test]
fn one_bit_from_another_of_its_signal(rt: HostRuntime) -> Result<(), Fail> {
    let nodes = bit_copies(&rt, rt.alloc(), &[(0, 1, 0, 0), (0, 0, 1, 0)])?;
    expect_order(&rt, rt.alloc(), &[2, 8], nodes, &[1, 0])?;
    Ok(())
}

// assign c[1] = c[d];
#[test]
fn a_select_at_run_time_reads_the_whole_signal(rt: HostRuntime) -> Result<(), Fail> {
    let alloc = rt.alloc();
    let pick = Typed::pick(alloc, SignalId(0), 1, 0, false, Typed::name(SignalId(1), 1))?;
    let mut nodes = Vec::new(alloc);
    nodes.push(assign(alloc, bit(0, 1), pick)?)?;
    expect_loop(&rt, alloc, &[2, 1], nodes, &[0])?;
    Ok(())
}

#[test]
fn two_in_a_circle(rt: HostRuntime) -> Result<(), Fail> {
    let nodes = copies(rt.alloc(), &[(0, 1), (1, 0)])?;
    expect_loop(&rt, rt.alloc(), &[1; 2], nodes, &[0, 1])?;
    Ok(())
}

// Three of four nodes are in a circle, which is listed from its least node along predecessors. The fourth reads a signal of the
// circle, or one that no node drives.
#[test]
fn three_in_a_circle(rt: HostRuntime) -> Result<(), Fail> {
    // what each node drives, which is the signal of its number, and what it reads; and the loop
    let table = [
        ([(0, 1), (1, 2), (2, 3), (3, 1)], [1, 2, 3]),
        ([(0, 1), (1, 3), (2, 1), (3, 2)], [1, 3, 2]),
        ([(0, 3), (1, 2), (2, 3), (3, 1)], [1, 2, 3]),
        ([(0, 2), (1, 3), (2, 1), (3, 2)], [1, 3, 2]),
        ([(0, 2), (1, 0), (2, 1), (3, 1)], [0, 2, 1]),
        ([(0, 3), (1, 2), (2, 0), (3, 2)], [0, 3, 2]),
        ([(0, 4), (1, 3), (2, 1), (3, 2)], [1, 3, 2]),
    ];
    for (pairs, wanted) in table {
        let nodes = copies(rt.alloc(), &pairs)?;
        expect_loop(&rt, rt.alloc(), &[1; 5], nodes, &wanted)?;
    }
    Ok(())
}

// 100,000 nodes, each of which reads what the next one drives.
#[test]
fn a_long_chain(rt: HostRuntime) -> Result<(), Fail> {
    let alloc = rt.alloc();
    let mut pairs = Vec::new(alloc);
    let mut widths = Vec::new(alloc);
    for k in 0..100_000u32 {
        pairs.push((k, k + 1))?;
        widths.push(1)?;
    }
    widths.push(1)?;
    let (placed, list) = answer(&rt, alloc, &widths, copies(alloc, &pairs)?)?;
    assert!(rt; placed && list.len() == 100_000);
    assert_eq!(rt; list[0], 99_999);
    assert_eq!(rt; list[99_999], 0);
    Ok(())
}
