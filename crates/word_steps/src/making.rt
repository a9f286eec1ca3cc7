// What a step makes of its words.
ghost use Rattle.std.specs.Prelude.{◌≡◌, ◌<◌, true, false, IsTrue, length};
ghost use Rattle.word_steps.specs.Walks.{apply, lowest, env_of};
ghost use Rattle.word_steps.specs.Sound.{is_sized};

use crate::op::Op;
use crate::step::Step;
use crate::{short, wide};

/// What a step for 128 bits makes of three words.
pub fn long_made(step: &Step, x: u128, y: u128, z: u128) -> u128
    requires { IsTrue (is_sized true step.now.op step.now.width step.now.low) }
    ensures { result ≡ apply step.now.op step.now.width step.now.low x y z }
{
    match step.op {
        Op::Copy => x,
        Op::Inverse => wide::inverse(x, step.width),
        Op::Negative => wide::negative(x, step.width),
        Op::AllOnes => wide::all_ones(x, step.width),
        Op::AnyOne => (x != 0) as u128,
        Op::NoOne => (x == 0) as u128,
        Op::OddOnes => (x.count_ones() % 2 == 1) as u128,
        Op::Sum => wide::sum(x, y, step.width),
        Op::Difference => wide::difference(x, y, step.width),
        Op::Product => wide::product(x, y, step.width),
        Op::And => x & y,
        Op::Or => x | y,
        Op::Xor => x ^ y,
        Op::Xnor => wide::xnor(x, y, step.width),
        Op::Quotient => wide::quotient(x, y, step.width, false),
        Op::Remainder => wide::remainder(x, y, step.width, false),
        Op::SignedQuotient => wide::quotient(x, y, step.width, true),
        Op::SignedRemainder => wide::remainder(x, y, step.width, true),
        Op::Equal => (x == y) as u128,
        Op::Unequal => (x != y) as u128,
        Op::Less => (x < y) as u128,
        Op::AtMost => (x <= y) as u128,
        Op::SignedLess => wide::signed_less(x, y, step.width),
        Op::SignedAtMost => wide::signed_at_most(x, y, step.width),
        Op::Both => (x != 0 && y != 0) as u128,
        Op::Either => (x != 0 || y != 0) as u128,
        Op::Left => wide::left(x, y, step.width),
        Op::Right => wide::right(x, y),
        Op::Arithmetic => wide::arithmetic(x, y, step.width),
        Op::Choose => { if x == 0 { z } else { y } }
        Op::Select => wide::cut(x >> step.low, step.width),
        Op::Join => wide::join(x, y, step.width, step.low),
        Op::Extend => wide::extend(x, step.width, step.low),
        Op::Place => wide::place(x, y, step.width, step.low),
        Op::Locate => wide::locate(x, y, step.width),
        Op::SignedLocate => wide::signed_locate(x, y, step.width),
        Op::Pick => wide::pick(x, y, step.width),
        Op::PlaceAt => wide::put_at(x, y, z, step.width, step.low),
        Op::SkipIfZero
        | Op::SkipIfEqual
        | Op::SkipUnlessEqual
        | Op::SkipUnlessLess
        | Op::SkipIfLess
        | Op::SkipUnlessSignedLess
        | Op::SkipIfSignedLess
        | Op::Skip => 0,
    }
}

// The lower 64 bits of a word.
fn short_at(words: &[u128], place: u32) -> u64
    requires { place < length words.now }
    ensures { result ≡ lowest 64 (env_of words.now place) }
{
    short::lower(words[place as usize])
}

/// What a step for 64 bits makes of the words at its places.
pub fn short_made(step: &Step, words: &[u128]) -> u64
    requires a { step.now.a < length words.now }
    requires b { step.now.b < length words.now }
    requires c { step.now.c < length words.now }
    requires sized { IsTrue (is_sized false step.now.op step.now.width step.now.low) }
    ensures { result ≡ apply step.now.op step.now.width step.now.low (lowest 64 (env_of words.now step.now.a))
        (lowest 64 (env_of words.now step.now.b)) (lowest 64 (env_of words.now step.now.c)) }
{
    let x = short_at(words, step.a);
    match step.op {
        Op::Copy => x,
        Op::Inverse => short::inverse(x, step.width),
        Op::Negative => short::negative(x, step.width),
        Op::AllOnes => short::all_ones(x, step.width),
        Op::AnyOne => (x != 0) as u64,
        Op::NoOne => (x == 0) as u64,
        Op::OddOnes => (x.count_ones() % 2 == 1) as u64,
        Op::Sum => short::sum(x, short_at(words, step.b), step.width),
        Op::Difference => short::difference(x, short_at(words, step.b), step.width),
        Op::Product => short::product(x, short_at(words, step.b), step.width),
        Op::And => x & short_at(words, step.b),
        Op::Or => x | short_at(words, step.b),
        Op::Xor => x ^ short_at(words, step.b),
        Op::Equal => (x == short_at(words, step.b)) as u64,
        Op::Unequal => (x != short_at(words, step.b)) as u64,
        Op::Less => (x < short_at(words, step.b)) as u64,
        Op::AtMost => (x <= short_at(words, step.b)) as u64,
        Op::Both => (x != 0 && short_at(words, step.b) != 0) as u64,
        Op::Either => (x != 0 || short_at(words, step.b) != 0) as u64,
        Op::Left => short::left(x, short_at(words, step.b), step.width),
        Op::Right => short::right(x, short_at(words, step.b)),
        Op::Choose => {
            let y = short_at(words, step.b);
            let z = short_at(words, step.c);
            if x == 0 { z } else { y }
        }
        Op::Select => short::cut(x >> step.low, step.width),
        Op::Join => short::join(x, short_at(words, step.b), step.width, step.low),
        Op::Extend => short::extend(x, step.width, step.low),
        Op::Place => short::place(x, short_at(words, step.b), step.width, step.low),
        _ => 0,
    }
}
