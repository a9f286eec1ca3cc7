// Steps over four words, with results worked out by hand.
use std::test::Fail;
use word_steps::{Op, Step, are_sound, walk};

// Two steps, the words before them, and the last word behind them; none where they may not be taken.
#[derive(Drop)]
struct Row {
    steps: [Step; 2],
    words: [u128; 4],
    last: Option<u128>,
}

// A step for 128 bits.
fn long(op: Op, width: u8, low: u8, to: u32, a: u32, b: u32, c: u32) -> Step {
    Step {
        op,
        width,
        low,
        wide: true,
        to,
        a,
        b,
        c,
    }
}

// A step for 64 bits.
fn short(op: Op, width: u8, low: u8, to: u32, a: u32, b: u32, c: u32) -> Step {
    Step {
        op,
        width,
        low,
        wide: false,
        to,
        a,
        b,
        c,
    }
}

fn gives(first: Step, second: Step, words: [u128; 4], last: u128) -> Row {
    Row {
        steps: [first, second],
        words,
        last: Some(last),
    }
}

// A step that may not be taken.
fn refused(step: Step) -> Row {
    Row {
        steps: [step, rest()],
        words: [0; 4],
        last: None,
    }
}

// A step that passes over none.
fn rest() -> Step {
    short(Op::Skip, 1, 0, 0, 0, 0, 0)
}

// The last word after the steps of a row; none where they may not be taken.
fn last_of(row: &Row) -> Option<u128> {
    let mut words = row.words;
    if !are_sound(&row.steps, words.len()) {
        return None;
    }
    walk(&row.steps, &mut words);
    Some(words[3])
}

const ABOVE_64: u128 = 0x1_0000_0000_0000_0000;

/// Sums that wrap, values above 64 bits, selects, skips, places at run time, and steps that may not be taken.
#[test]
fn steps_by_hand(rt: HostRuntime) -> Result<(), Fail> {
    let sum = short(Op::Sum, 8, 0, 3, 0, 1, 0);
    let locate = long(Op::Locate, 8, 0, 3, 0, 1, 0);
    let signed_locate = long(Op::SignedLocate, 8, 0, 3, 0, 1, 0);
    let pick = long(Op::Pick, 4, 0, 3, 2, 3, 0);
    let rows = [
        gives(sum, rest(), [200, 100, 0, 0], 44),
        gives(
            long(Op::Sum, 65, 0, 3, 0, 1, 0),
            rest(),
            [ABOVE_64, ABOVE_64 + 3, 0, 0],
            3,
        ),
        gives(
            long(Op::Copy, 1, 0, 3, 0, 0, 0),
            rest(),
            [ABOVE_64 + 5, 0, 0, 0],
            ABOVE_64 + 5,
        ),
        gives(
            short(Op::Copy, 1, 0, 3, 0, 0, 0),
            rest(),
            [ABOVE_64 + 5, 0, 0, 0],
            5,
        ),
        gives(
            short(Op::Select, 4, 4, 3, 0, 0, 0),
            rest(),
            [0xabc, 0, 0, 0],
            0xb,
        ),
        gives(
            long(Op::Select, 2, 64, 3, 0, 0, 0),
            rest(),
            [ABOVE_64 * 7, 0, 0, 0],
            3,
        ),
        gives(
            short(Op::SkipIfZero, 1, 0, 0, 2, 0, 1),
            sum,
            [200, 100, 0, 9],
            9,
        ),
        gives(
            short(Op::SkipIfZero, 1, 0, 0, 2, 0, 1),
            sum,
            [200, 100, 1, 9],
            44,
        ),
        gives(
            long(Op::SkipIfLess, 1, 0, 0, 0, 1, 1),
            sum,
            [99, 100, 0, 9],
            9,
        ),
        gives(
            long(Op::SkipIfLess, 1, 0, 0, 0, 1, 1),
            sum,
            [100, 100, 0, 9],
            200,
        ),
        gives(
            long(Op::SkipIfSignedLess, 8, 0, 0, 0, 1, 1),
            sum,
            [200, 100, 0, 9],
            9,
        ),
        gives(
            long(Op::SkipUnlessSignedLess, 9, 0, 0, 0, 1, 1),
            sum,
            [200, 100, 0, 9],
            9,
        ),
        gives(
            long(Op::SkipUnlessSignedLess, 8, 0, 0, 0, 1, 1),
            sum,
            [200, 100, 0, 9],
            44,
        ),
        gives(locate, pick, [7, 3, 0xabc, 0], 0xb),
        gives(signed_locate, pick, [255, 0, 0xabc, 0], 8),
        gives(
            locate,
            long(Op::PlaceAt, 4, 8, 3, 2, 3, 2),
            [7, 1, 0x0f, 0],
            0xcf,
        ),
        gives(
            long(Op::SignedLess, 8, 0, 3, 0, 1, 0),
            rest(),
            [255, 1, 0, 0],
            1,
        ),
        gives(short(Op::Less, 8, 0, 3, 0, 1, 0), rest(), [255, 1, 0, 0], 0),
        refused(short(Op::Sum, 8, 0, 3, 0, 4, 0)),
        refused(short(Op::Sum, 65, 0, 3, 0, 1, 0)),
        refused(short(Op::SignedLess, 8, 0, 3, 0, 1, 0)),
    ];
    for row in &rows {
        assert_eq!(rt; last_of(row), row.last);
    }
    Ok(())
}
