// The words of expressions, each of which takes operands off the end of a list and puts what it makes of them there.
//
//     num:W:N            the number N of W bits
//     s:I:W              the signal of number I as a whole, of W bits
//     part:I:L:W         its W bits from bit L on
//     pick:I:W:B         its W bits from a place that is known at run time: the index, which stands before, less B
//     spick:I:W:B        the same with a signed index
//     cat                what stands before last above what stands last
//     copies:N           N copies
//     choice             of three, the second where the first isn't 0, else the third
//     resize:W sresize:W what stands last at W bits, unsigned and signed
//     an operator        `operators` has their names
use crate::operators::{binary_of, unary_of};
use crate::word::Word;
use bits::Bits;
use ls_text::NoMemory;
use std::alloc::Global;
use typed_ir::{BinaryOperator, SignalId, Span, Typed, UnaryOperator};

// Bits that are known.
fn part(word: &Word) -> Option<Typed> {
    let span = Span {
        signal: SignalId(word.long(0)),
        low: word.short(1),
        width: word.width(2),
    };
    if span.low > 128 - span.width {
        return None;
    }
    Some(Typed::part(span))
}

fn pick(
    alloc: Global,
    list: &mut Vec<Typed>,
    word: &Word,
    signed: bool,
) -> Result<Option<Typed>, NoMemory> {
    let signal = SignalId(word.long(0));
    match list.pop() {
        Some(index) => {
            let made = Typed::pick(alloc, signal, word.width(1), word.long(2), signed, index)?;
            Ok(Some(made))
        }
        None => Ok(None),
    }
}

fn unary(
    alloc: Global,
    list: &mut Vec<Typed>,
    operator: UnaryOperator,
) -> Result<Option<Typed>, NoMemory> {
    match list.pop() {
        Some(a) => Ok(Some(Typed::unary(alloc, operator, a)?)),
        None => Ok(None),
    }
}

// The last two.
fn two(list: &mut Vec<Typed>) -> Option<(Typed, Typed)> {
    match list.pop() {
        Some(b) => match list.pop() {
            Some(a) => Some((a, b)),
            None => None,
        },
        None => None,
    }
}

fn binary(
    alloc: Global,
    list: &mut Vec<Typed>,
    operator: BinaryOperator,
) -> Result<Option<Typed>, NoMemory> {
    let Some((a, b)) = two(list) else {
        return Ok(None);
    };
    if !operator.takes(a.width, b.width) {
        return Ok(None);
    }
    Ok(Some(Typed::binary(alloc, operator, a, b)?))
}

fn cat(alloc: Global, list: &mut Vec<Typed>) -> Result<Option<Typed>, NoMemory> {
    let Some((high, low)) = two(list) else {
        return Ok(None);
    };
    if u16::from(high.width) + u16::from(low.width) > 128 {
        return Ok(None);
    }
    Ok(Some(Typed::concat(alloc, high, low)?))
}

fn copies(alloc: Global, list: &mut Vec<Typed>, word: &Word) -> Result<Option<Typed>, NoMemory> {
    let count = word.width(0);
    let Some(a) = list.pop() else {
        return Ok(None);
    };
    if u16::from(count) * u16::from(a.width) > 128 {
        return Ok(None);
    }
    Ok(Some(Typed::repeat(alloc, count, a)?))
}

fn choice(alloc: Global, list: &mut Vec<Typed>) -> Result<Option<Typed>, NoMemory> {
    let Some((a, b)) = two(list) else {
        return Ok(None);
    };
    if a.width != b.width {
        return Ok(None);
    }
    match list.pop() {
        Some(c) => Ok(Some(Typed::choice(alloc, c, a, b)?)),
        None => Ok(None),
    }
}

fn resize(
    alloc: Global,
    list: &mut Vec<Typed>,
    word: &Word,
    signed: bool,
) -> Result<Option<Typed>, NoMemory> {
    match list.pop() {
        Some(a) => Ok(Some(Typed::resized(alloc, a, word.width(0), signed)?)),
        None => Ok(None),
    }
}

// What an operator makes; none where the word is none.
fn operation(alloc: Global, list: &mut Vec<Typed>, word: &Word) -> Result<Option<Typed>, NoMemory> {
    if let Some(operator) = unary_of(word.name) {
        return unary(alloc, list, operator);
    }
    match binary_of(word.name) {
        Some(operator) => binary(alloc, list, operator),
        None => Ok(None),
    }
}

// What a word makes.
fn made(alloc: Global, list: &mut Vec<Typed>, word: &Word) -> Result<Option<Typed>, NoMemory> {
    match word.name {
        b"num" => Ok(Some(Typed::constant(Bits::new(word.width(0), word.number(1))))),
        b"s" => Ok(Some(Typed::name(SignalId(word.long(0)), word.width(1)))),
        b"part" => Ok(part(word)),
        b"pick" => pick(alloc, list, word, false),
        b"spick" => pick(alloc, list, word, true),
        b"cat" => cat(alloc, list),
        b"copies" => copies(alloc, list, word),
        b"choice" => choice(alloc, list),
        b"resize" => resize(alloc, list, word, false),
        b"sresize" => resize(alloc, list, word, true),
        _ => operation(alloc, list, word),
    }
}

/// Takes a word of an expression; false where it is none, or its operands are missing or have other widths.
pub fn takes_expression(
    alloc: Global,
    list: &mut Vec<Typed>,
    word: &Word,
) -> Result<bool, NoMemory> {
    match made(alloc, list, word)? {
        Some(e) => {
            list.push(e)?;
            Ok(true)
        }
        None => Ok(false),
    }
}
