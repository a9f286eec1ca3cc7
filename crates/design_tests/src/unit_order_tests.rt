// Orders of instances of one unit, worked out by hand, where what one of them drives leads back to it.
use crate::instance_order_tests::{
    STAGE_STEPS, STAGES, bits_in, expect_order, expect_order_of, nodes_of, put,
};
use crate::order_tests::{inverses, tied};
use ls_text::NameId;
use std::test::Fail;

// What one instance drives leads back to it by a wire of the top, so its q stands before its p; and so they stand in the other one too, which
// comes before it or behind it.
#[test]
fn instances_of_a_unit_have_one_order(rt: HostRuntime) -> Result<(), Fail> {
    let table = [
        // x1 = w, w = q1, x2 = in
        ([(2, 0), (0, 4), (6, 1)], [2, 6, 1, 0, 4, 5, 3]),
        // x1 = in, x2 = w, w = q2
        ([(2, 1), (6, 0), (0, 8)], [0, 6, 4, 5, 2, 1, 3]),
    ];
    for (names, wanted) in table {
        expect_order(
            &rt,
            rt.alloc(),
            &[0, 0],
            &STAGES,
            &names,
            &STAGE_STEPS,
            &wanted,
        )?;
    }
    Ok(())
}

// The same, but the second one is of another module: its p stands before its q, by their numbers.
#[test]
fn another_module_has_an_order_of_its_own(rt: HostRuntime) -> Result<(), Fail> {
    // x1 = w, w = q1, x2 = in
    let names = [(2, 0), (0, 4), (6, 1)];
    let mut signals = bits_in(&rt, rt.alloc(), &STAGES)?;
    for place in 6..signals.len() {
        signals[place].in_module = NameId(1);
    }
    let nodes = nodes_of(rt.alloc(), &names, &STAGE_STEPS)?;
    let wanted = [2, 6, 1, 0, 4, 3, 5];
    expect_order_of(&rt, rt.alloc(), &[0, 0], signals, nodes, &wanted)?;
    Ok(())
}

// The way back has a step, so the instance that it leads back to stands in a circle. It leads: the other one has its order.
#[test]
fn an_instance_in_a_circle_leads(rt: HostRuntime) -> Result<(), Fail> {
    // p2, p1, q2, q1, behind x1 = ~w or x2 = ~w
    let [p2, p1, q2, q1] = STAGE_STEPS;
    let table = [
        // x2 = in, w = q1
        ([(6, 1), (0, 4)], (2, 0), [0, 6, 1, 2, 4, 5, 3]),
        // x1 = in, w = q2
        ([(2, 1), (0, 8)], (6, 0), [0, 5, 1, 2, 3, 6, 4]),
    ];
    for (names, back, wanted) in table {
        let steps = [back, p2, p1, q2, q1];
        expect_order(&rt, rt.alloc(), &[0, 0], &STAGES, &names, &steps, &wanted)?;
    }
    Ok(())
}

// Two instances each have a step that reads nothing, one into another instance within by its connection, and one of that, listed unit by unit: in
// both what reads nothing comes first.
#[test]
fn what_reads_nothing_has_its_place(rt: HostRuntime) -> Result<(), Fail> {
    let alloc = rt.alloc();
    // in; i and c of the first, and x and p within; and those of the second
    let signals = bits_in(&rt, alloc, &[0, 1, 1, 2, 2, 3, 3, 4, 4])?;
    // i1 = in, i2 = in
    let mut nodes = nodes_of(alloc, &[(1, 0), (5, 0)], &[])?;
    for first in [1, 5] {
        // c = 0; x of i; p of x
        nodes.push(tied(alloc, first + 1)?)?;
        put(
            &mut nodes,
            inverses(alloc, &[(first + 2, first), (first + 3, first + 2)])?,
        )?;
    }
    let wanted = [0, 1, 2, 3, 4, 5, 6, 7];
    expect_order_of(&rt, alloc, &[0, 1, 0, 3], signals, nodes, &wanted)?;
    Ok(())
}

// Two instances each have two others within, and what the second within of the first gives leads to the first within by a wire of the top: so
// in both the second within stands before the first.
#[test]
fn instances_within_have_one_order(rt: HostRuntime) -> Result<(), Fail> {
    // w, in; i1, j1, o1; x, p of the first in it; x, p of the second in it; i2, j2, o2; and the same of those
    let instances = [0, 0, 1, 1, 1, 2, 2, 3, 3, 4, 4, 4, 5, 5, 6, 6];
    // i1 = w, j1 = in, w = o1, o1 = p of its second, x = i1, x = j1; i2 = in, j2 = in, o2 = p of its second, x = i2, x = j2
    let names = [
        (2, 0),
        (3, 1),
        (0, 4),
        (4, 8),
        (5, 2),
        (7, 3),
        (9, 1),
        (10, 1),
        (11, 15),
        (12, 9),
        (14, 10),
    ];
    // p of x: of the first in the second, of the first in the first, of the second in the second, of the second in the first
    let steps = [(13, 12), (6, 5), (15, 14), (8, 7)];
    let wanted = [1, 5, 6, 7, 9, 10, 14, 3, 2, 0, 4, 12, 13, 8, 11];
    expect_order(
        &rt,
        rt.alloc(),
        &[0, 1, 1, 0, 4, 4],
        &instances,
        &names,
        &steps,
        &wanted,
    )?;
    Ok(())
}

// The signals of a top, which are w, v and in, and of three instances in it, which have x, p, y and q each: p is of x, and q of y.
const PAIRS: [u32; 15] = [0, 0, 0, 1, 1, 1, 1, 2, 2, 2, 2, 3, 3, 3, 3];

// The first needs its p before its q, and the second its q before its p, by names alone: each stands side by side. The third has the order
// of its numbers, q before p.
#[test]
fn instances_that_need_opposite_orders(rt: HostRuntime) -> Result<(), Fail> {
    // y1 = w, w = p1, x1 = in; x2 = v, v = q2, y2 = in; x3 = in, y3 = in
    let names = [
        (5, 0),
        (0, 4),
        (3, 2),
        (7, 1),
        (1, 10),
        (9, 2),
        (11, 2),
        (13, 2),
    ];
    // q3, p3, q2, p2, q1, p1
    let steps = [(14, 13), (12, 11), (10, 9), (8, 7), (6, 5), (4, 3)];
    let wanted = [2, 5, 6, 7, 13, 1, 0, 12, 10, 4, 3, 11, 8, 9];
    expect_order(&rt, rt.alloc(), &[0, 0, 0], &PAIRS, &names, &steps, &wanted)?;
    Ok(())
}

// The same by ways back that have a step: the first of the two in a circle leads the third, p before q.
#[test]
fn the_first_in_a_circle_leads(rt: HostRuntime) -> Result<(), Fail> {
    // x1 = in, y2 = in, x3 = in, y3 = in; w = p1, v = q2
    let names = [(3, 2), (9, 2), (11, 2), (13, 2), (0, 4), (1, 10)];
    // y1 of w, x2 of v; q3, p3, q2, p2, q1, p1
    let steps = [
        (5, 0),
        (7, 1),
        (14, 13),
        (12, 11),
        (10, 9),
        (8, 7),
        (6, 5),
        (4, 3),
    ];
    let wanted = [0, 1, 2, 3, 13, 4, 6, 12, 10, 5, 7, 11, 9, 8];
    expect_order(&rt, rt.alloc(), &[0, 0, 0], &PAIRS, &names, &steps, &wanted)?;
    Ok(())
}
