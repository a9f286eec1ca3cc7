// Orders of designs with several instances, worked out by hand. Most nodes are names, `assign TO = FROM;`, or steps, `assign TO = ~FROM;`, of
// one bit. r stands for a register: no node drives it.
use crate::order_tests::{assign, bit_copies, copies, inverses, order_within, signal, tied};
use ls_text::{NameId, NoMemory};
use std::alloc::Global;
use std::process::Abort;
use std::test::Fail;
use typed_ir::{InstanceId, InstanceName, InstanceTable, Node, Signal, SignalId, Span, Typed};

// A top, and behind it instances that stand in these.
fn table_of(rt: &impl Abort, alloc: Global, parents: &[u32]) -> Result<InstanceTable, NoMemory> {
    let mut rows = Vec::new(alloc);
    rows.push(InstanceName {
        parent: None,
        name: NameId(0),
    })?;
    for parent in parents {
        rows.push(InstanceName {
            parent: Some(InstanceId(*parent)),
            name: NameId(rows.len() as u64),
        })?;
    }
    Ok(InstanceTable::new(rows).expect(rt, "a table"))
}

// Signals in these instances, of so many bits each.
fn signals_in(
    rt: &impl Abort,
    alloc: Global,
    places: &[(u32, u8)],
) -> Result<Vec<Signal>, NoMemory> {
    let mut signals = Vec::new(alloc);
    for (instance, width) in places {
        signals.push(signal(rt, *instance, signals.len(), *width))?;
    }
    Ok(signals)
}

// Signals of one bit in these instances.
pub fn bits_in(rt: &impl Abort, alloc: Global, instances: &[u32]) -> Result<Vec<Signal>, NoMemory> {
    let mut signals = Vec::new(alloc);
    for instance in instances {
        signals.push(signal(rt, *instance, signals.len(), 1))?;
    }
    Ok(signals)
}

// That this is the order of nodes.
pub fn expect_order_of(
    rt: &impl Abort,
    alloc: Global,
    parents: &[u32],
    signals: Vec<Signal>,
    nodes: Vec<Node>,
    wanted: &[u32],
) -> Result<(), NoMemory> {
    let table = table_of(rt, alloc, parents)?;
    let (placed, list) = order_within(rt, alloc, table, signals, nodes)?;
    assert!(rt; placed);
    assert_eq!(rt; list.as_slice(), wanted);
    Ok(())
}

// Puts nodes behind others.
pub fn put(nodes: &mut Vec<Node>, more: Vec<Node>) -> Result<(), NoMemory> {
    for node in more {
        nodes.push(node)?;
    }
    Ok(())
}

// Names, and behind them steps: what each drives, and what it reads.
pub fn nodes_of(
    alloc: Global,
    names: &[(u32, u32)],
    steps: &[(u32, u32)],
) -> Result<Vec<Node>, NoMemory> {
    let mut nodes = copies(alloc, names)?;
    put(&mut nodes, inverses(alloc, steps)?)?;
    Ok(nodes)
}

// The same of these names and steps, where signals of one bit stand in these instances.
pub fn expect_order(
    rt: &impl Abort,
    alloc: Global,
    parents: &[u32],
    instances: &[u32],
    names: &[(u32, u32)],
    steps: &[(u32, u32)],
    wanted: &[u32],
) -> Result<(), NoMemory> {
    let signals = bits_in(rt, alloc, instances)?;
    let nodes = nodes_of(alloc, names, steps)?;
    expect_order_of(rt, alloc, parents, signals, nodes, wanted)
}

// The signals of a top, which are two wires, and of two instances in it, which have x, p, q and r each: p is of x, and q of r.
pub const STAGES: [u32; 10] = [0, 0, 1, 1, 1, 1, 2, 2, 2, 2];

// Their steps, those of both instances by turns: p2, p1, q2, q1.
pub const STAGE_STEPS: [(u32, u32); 4] = [(7, 6), (3, 2), (8, 9), (4, 5)];

// The first instance reads what the second one drives, by a wire of the top: first all of the second one, then all of the first.
#[test]
fn an_instance_stands_behind_what_it_waits_for(rt: HostRuntime) -> Result<(), Fail> {
    // x1 = w, x2 = in, w = p2
    let names = [(2, 0), (6, 1), (0, 7)];
    let wanted = [1, 3, 2, 0, 5, 4, 6];
    expect_order(
        &rt,
        rt.alloc(),
        &[0, 0],
        &STAGES,
        &names,
        &STAGE_STEPS,
        &wanted,
    )?;
    Ok(())
}

// The second instance reads what the first one drives: no step of the second stands before the last of the first.
#[test]
fn instances_stand_one_behind_the_other(rt: HostRuntime) -> Result<(), Fail> {
    // x1 = in, x2 = w, w = p1
    let names = [(2, 1), (6, 0), (0, 3)];
    let wanted = [0, 4, 2, 1, 6, 3, 5];
    expect_order(
        &rt,
        rt.alloc(),
        &[0, 0],
        &STAGES,
        &names,
        &STAGE_STEPS,
        &wanted,
    )?;
    Ok(())
}

// Each instance reads what the other one has: the first begins, and goes on behind all of the second.
#[test]
fn two_instances_that_wait_for_each_other(rt: HostRuntime) -> Result<(), Fail> {
    // x1 = v, w = q1; x2 = w, v = q2
    let names = [(2, 1), (0, 4), (6, 0), (1, 8)];
    let wanted = [7, 1, 2, 4, 6, 3, 0, 5];
    expect_order(
        &rt,
        rt.alloc(),
        &[0, 0],
        &STAGES,
        &names,
        &STAGE_STEPS,
        &wanted,
    )?;
    Ok(())
}

// Each instance reads a register of the other one, by names alone: no step waits, and each stands side by side.
#[test]
fn two_instances_that_read_registers_of_each_other(rt: HostRuntime) -> Result<(), Fail> {
    // w, v; x1, p1, q1, r1, z1; x2, p2, q2, r2, z2
    let instances = [0, 0, 1, 1, 1, 1, 1, 2, 2, 2, 2, 2];
    // x1 = v, w = q1; x2 = w, v = q2; q1 = r1, q2 = r2
    let names = [(2, 1), (0, 4), (7, 0), (1, 9), (4, 5), (9, 10)];
    // z2 of r2, p1 of x1, p2 of x2, z1 of r1
    let steps = [(11, 10), (3, 2), (8, 7), (6, 5)];
    let wanted = [4, 1, 2, 5, 3, 0, 7, 9, 6, 8];
    expect_order(
        &rt,
        rt.alloc(),
        &[0, 0],
        &instances,
        &names,
        &steps,
        &wanted,
    )?;
    Ok(())
}

// The first two read what the other has, and the third what the first gives: it stands side by side behind the whole circle.
#[test]
fn an_instance_behind_two_that_wait_for_each_other(rt: HostRuntime) -> Result<(), Fail> {
    // v, w, u; x1, p1, q1, r1; x2, p2, q2, r2; x3, p3, q3, r3
    let instances = [0, 0, 0, 1, 1, 1, 1, 2, 2, 2, 2, 3, 3, 3, 3];
    // x1 = v, w = q1, u = p1; x2 = w, v = q2; x3 = u
    let names = [(3, 0), (1, 5), (2, 4), (7, 1), (0, 9), (11, 2)];
    // p3 of x3, p2 of x2, q3 of r3, q1 of r1, q2 of r2, p1 of x1
    let steps = [(12, 11), (8, 7), (13, 14), (5, 6), (9, 10), (4, 3)];
    let wanted = [9, 1, 3, 7, 10, 4, 0, 11, 2, 5, 6, 8];
    expect_order(
        &rt,
        rt.alloc(),
        &[0, 0, 0],
        &instances,
        &names,
        &steps,
        &wanted,
    )?;
    Ok(())
}

// The second stands in the first, which hands x on to it and its p back, by names alone.
#[test]
fn an_instance_within_another(rt: HostRuntime) -> Result<(), Fail> {
    // in, w; x1, p1, q1, r1; x2, p2, q2, r2
    let instances = [0, 0, 1, 1, 1, 1, 2, 2, 2, 2];
    // x1 = in, w = p1; x2 = x1, p1 = p2
    let names = [(2, 0), (1, 3), (6, 2), (3, 7)];
    // p2 of x2, q1 of r1, q2 of r2
    let steps = [(7, 6), (4, 5), (8, 9)];
    let wanted = [0, 2, 5, 4, 3, 1, 6];
    expect_order(
        &rt,
        rt.alloc(),
        &[0, 1],
        &instances,
        &names,
        &steps,
        &wanted,
    )?;
    Ok(())
}

// A wire of the first goes through the second, which stands in it, and back: the first falls apart, and the second stands side by side.
#[test]
fn a_wire_through_an_instance_within(rt: HostRuntime) -> Result<(), Fail> {
    // in; x1, w1, y1, p1, q1, r1; x2, p2, q2, r2
    let instances = [0, 1, 1, 1, 1, 1, 1, 2, 2, 2, 2];
    // x1 = in; x2 = w1, y1 = p2
    let names = [(1, 0), (7, 2), (3, 8)];
    // w1 of x1, p1 of y1, q1 of r1; p2 of x2, q2 of r2
    let steps = [(2, 1), (4, 3), (5, 6), (8, 7), (9, 10)];
    let wanted = [0, 3, 1, 5, 6, 2, 7, 4];
    expect_order(
        &rt,
        rt.alloc(),
        &[0, 1],
        &instances,
        &names,
        &steps,
        &wanted,
    )?;
    Ok(())
}

// The first feeds the second, which stands in it, and reads a register of it by a name: no step waits for the second, and each stands side
// by side.
#[test]
fn a_register_of_an_instance_within(rt: HostRuntime) -> Result<(), Fail> {
    // in; i, u, v, y; x, p, q, r, z
    let instances = [0, 1, 1, 1, 1, 2, 2, 2, 2, 2];
    // i = in; x = u, y = q; q = r
    let names = [(1, 0), (5, 2), (4, 7), (7, 8)];
    // p of x, u of i, z of r, v of y
    let steps = [(6, 5), (2, 1), (9, 8), (3, 4)];
    let wanted = [0, 3, 2, 5, 1, 7, 4, 6];
    expect_order(
        &rt,
        rt.alloc(),
        &[0, 1],
        &instances,
        &names,
        &steps,
        &wanted,
    )?;
    Ok(())
}

// The first feeds the second, which stands in it, and reads what that hands back by a name: no step waits for one of the second.
#[test]
fn a_name_through_an_instance_within(rt: HostRuntime) -> Result<(), Fail> {
    // in; i, u, v, y; x, t, p
    let instances = [0, 1, 1, 1, 1, 2, 2, 2];
    // i = in; x = u, y = t; t = x
    let names = [(1, 0), (5, 2), (6, 5), (4, 6)];
    // u of i; p of x; v of y
    let steps = [(2, 1), (7, 5), (3, 4)];
    let wanted = [0, 4, 1, 2, 3, 6, 5];
    expect_order(
        &rt,
        rt.alloc(),
        &[0, 1],
        &instances,
        &names,
        &steps,
        &wanted,
    )?;
    Ok(())
}

// The second is connected to a constant, and the first to a wire: both stand in one order.
#[test]
fn a_constant_changes_no_order(rt: HostRuntime) -> Result<(), Fail> {
    // x1 = in; and x2 = 0 behind the others
    let mut nodes = nodes_of(rt.alloc(), &[(2, 0)], &STAGE_STEPS)?;
    nodes.push(tied(rt.alloc(), 6)?)?;
    let signals = bits_in(&rt, rt.alloc(), &STAGES)?;
    let wanted = [0, 2, 4, 5, 1, 3];
    expect_order_of(&rt, rt.alloc(), &[0, 0], signals, nodes, &wanted)?;
    Ok(())
}

// The signals of a top, which are two wires, and of two instances in it, of i, t, z, r, y and o each, and in each of these one of x and p.
const CORES: [u32; 18] = [0, 0, 1, 1, 1, 1, 1, 1, 2, 2, 3, 3, 3, 3, 3, 3, 4, 4];

// Two instances through which a wire goes into one within and back: one behind the other, and both beside each other. Neither stands among
// the steps of the other, and both stand in one order.
#[test]
fn instances_with_others_within(rt: HostRuntime) -> Result<(), Fail> {
    // t of i, z of r, p of x, o of y: t2, t1, p2, z1, z2, p1, o2, o1
    let steps = [
        (11, 10),
        (3, 2),
        (17, 16),
        (4, 5),
        (12, 13),
        (9, 8),
        (15, 14),
        (7, 6),
    ];
    // of the second one its i is w, or in
    for (second, wanted) in [
        (1, [0, 8, 3, 10, 12, 4, 14, 1, 2, 7, 5, 11, 9, 6, 13]),
        (0, [0, 2, 8, 3, 10, 12, 4, 14, 1, 7, 5, 11, 9, 6, 13]),
    ] {
        // i1 = in, w = o1, i2; x = t, y = p of the first and of the second
        let names = [
            (2, 0),
            (1, 7),
            (10, second),
            (8, 3),
            (6, 9),
            (16, 11),
            (14, 17),
        ];
        expect_order(
            &rt,
            rt.alloc(),
            &[0, 1, 0, 3],
            &CORES,
            &names,
            &steps,
            &wanted,
        )?;
    }
    Ok(())
}

// A wire of the top goes through the first by one within it, and by a step of the top once more through the first by another one within:
// each of these stands side by side.
#[test]
fn an_instance_that_is_entered_twice(rt: HostRuntime) -> Result<(), Fail> {
    // in, w; a, b, p, q; x1, y1, z1, r1; x2, y2, z2, r2
    let instances = [0, 0, 1, 1, 1, 1, 2, 2, 2, 2, 3, 3, 3, 3];
    // a = in, b = w; x1 = a, p = y1, x2 = b, q = y2
    let names = [(2, 0), (3, 1), (6, 2), (4, 7), (10, 3), (5, 11)];
    // w of p; y1 of x1, z1 of r1; y2 of x2, z2 of r2
    let steps = [(1, 4), (7, 6), (8, 9), (11, 10), (12, 13)];
    let wanted = [0, 2, 7, 3, 8, 6, 1, 4, 9, 5, 10];
    expect_order(
        &rt,
        rt.alloc(),
        &[0, 1, 1],
        &instances,
        &names,
        &steps,
        &wanted,
    )?;
    Ok(())
}

// The top's own nodes wait for the third instance, which waits for them, and fall apart; the first waits as a whole for what waits for it,
// and is opened; and then its own nodes share a component with the second, which stands in it, and fall apart too.
#[test]
fn circles_are_taken_apart_in_three_turns(rt: HostRuntime) -> Result<(), Fail> {
    // u; a, b, c, d, e; x2, p2; x3, p3; f, g, h, k
    let instances = [0, 1, 1, 1, 1, 1, 2, 2, 3, 3, 0, 0, 0, 0];
    // x3 = f; b = p2; g = p3; a = u; x2 = d
    let names = [(8, 10), (2, 7), (11, 9), (1, 0), (6, 4)];
    // k of g; d of e; p3 of x3; u of b; c of a; p2 of x2; f of h
    let steps = [(13, 11), (4, 5), (9, 8), (0, 2), (3, 1), (7, 6), (10, 12)];
    let wanted = [6, 4, 11, 0, 10, 1, 8, 3, 9, 7, 2, 5];
    expect_order(
        &rt,
        rt.alloc(),
        &[0, 1, 0],
        &instances,
        &names,
        &steps,
        &wanted,
    )?;
    Ok(())
}

// A step in the innermost of five instances, each in the one before, waits for one in the innermost of five others, by names alone: first
// all of those.
#[test]
fn names_through_many_instances(rt: HostRuntime) -> Result<(), Fail> {
    let instances = [
        0, 1, 1, 1, 2, 2, 2, 3, 3, 3, 4, 4, 4, 5, 5, 5, 6, 6, 6, 7, 7, 7, 8, 8, 8, 9, 9, 9, 10, 10,
        10,
    ];
    // w; and of each instance x, z and r: x9 = x10, x8 = x9, x7 = x8, x6 = x7; w = x6; x1 = w, x2 = x1, x3 = x2, x4 = x3, x5 = x4
    let names = [
        (25, 28),
        (22, 25),
        (19, 22),
        (16, 19),
        (0, 16),
        (1, 0),
        (4, 1),
        (7, 4),
        (10, 7),
        (13, 10),
    ];
    // z1 of r1, z2 of r2, z3 of r3, z4 of r4, z5 of x5; z6 of r6, z7 of r7, z8 of r8, z9 of r9, z10 of r10, x10 of z10
    let steps = [
        (2, 3),
        (5, 6),
        (8, 9),
        (11, 12),
        (14, 13),
        (17, 18),
        (20, 21),
        (23, 24),
        (26, 27),
        (29, 30),
        (28, 29),
    ];
    let wanted = [
        15, 16, 17, 18, 19, 20, 0, 1, 2, 3, 4, 5, 6, 7, 8, 9, 10, 11, 12, 13, 14,
    ];
    let parents = [0, 1, 2, 3, 4, 0, 6, 7, 8, 9];
    expect_order(
        &rt,
        rt.alloc(),
        &parents,
        &instances,
        &names,
        &steps,
        &wanted,
    )?;
    Ok(())
}

// assign TO = FROM; both of two bits, for each pair
fn pair_names(alloc: Global, pairs: &[(u32, u32)]) -> Result<Vec<Node>, NoMemory> {
    let mut nodes = Vec::new(alloc);
    for (to, from) in pairs {
        let span = Span {
            signal: SignalId(*to),
            low: 0,
            width: 2,
        };
        nodes.push(assign(alloc, span, Typed::name(SignalId(*from), 2))?)?;
    }
    Ok(nodes)
}

// in; i, u, v and y in the first; x, p, q and r in the second, which stands in it, and has q and y of two bits. What drives the lower bit of
// q is no name of r, but a step; so a step of the first waits for the second, which waits for one of the first, and the first falls apart.
#[test]
fn a_part_of_a_wire_is_no_name(rt: HostRuntime) -> Result<(), Fail> {
    let alloc = rt.alloc();
    let places = [
        (0, 1),
        (1, 1),
        (1, 1),
        (1, 1),
        (1, 2),
        (2, 1),
        (2, 1),
        (2, 2),
        (2, 1),
    ];
    let signals = signals_in(&rt, alloc, &places)?;
    // i = in, x = u; y = q; u of i; v = y[0]; p of x; q[0] = r
    let mut nodes = copies(alloc, &[(1, 0), (5, 2)])?;
    put(&mut nodes, pair_names(alloc, &[(4, 7)])?)?;
    put(&mut nodes, inverses(alloc, &[(2, 1)])?)?;
    put(&mut nodes, bit_copies(&rt, alloc, &[(3, 0, 4, 0)])?)?;
    put(&mut nodes, inverses(alloc, &[(6, 5)])?)?;
    put(&mut nodes, copies(alloc, &[(7, 8)])?)?;
    let wanted = [0, 3, 1, 5, 6, 2, 4];
    expect_order_of(&rt, alloc, &[0, 1], signals, nodes, &wanted)?;
    Ok(())
}

// in; i, u, v and y in the first; x, t and p in the second, which stands in it; u, y, x and t are of two bits. The first drives u bit by bit,
// hands it to the second, and reads it back by names: it stands side by side.
#[test]
fn a_name_of_what_two_nodes_drive(rt: HostRuntime) -> Result<(), Fail> {
    let alloc = rt.alloc();
    let places = [
        (0, 1),
        (1, 1),
        (1, 2),
        (1, 1),
        (1, 2),
        (2, 2),
        (2, 2),
        (2, 1),
    ];
    let signals = signals_in(&rt, alloc, &places)?;
    // i = in; x = u, t = x, y = t; u[0] = i[0], p = x[0], u[1] = i[0], v = y[1]
    let mut nodes = copies(alloc, &[(1, 0)])?;
    put(&mut nodes, pair_names(alloc, &[(5, 2), (6, 5), (4, 6)])?)?;
    let table = [(2, 0, 1, 0), (7, 0, 5, 0), (2, 1, 1, 0), (3, 0, 4, 1)];
    put(&mut nodes, bit_copies(&rt, alloc, &table)?)?;
    let wanted = [0, 4, 6, 1, 2, 3, 7, 5];
    expect_order_of(&rt, alloc, &[0, 1], signals, nodes, &wanted)?;
    Ok(())
}
