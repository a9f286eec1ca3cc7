// The words of a row.
ghost use Rattle.std.specs.Prelude.{◌≤◌};

use ls_text::{NoMemory, behind, front};
use std::alloc::Global;

/// A word of a row: its name, and then numbers, each behind a colon, in decimal digits or, behind an `x`, in hexadecimal ones.
#[derive(Drop)]
pub struct Word<'a> {
    pub name: &'a [u8],
    numbers: Vec<u128>,
}

// What a digit stands for.
fn digit_of(byte: u8) -> u128 {
    u128::from(if byte >= b'a' {
        (byte & 15) + 9
    } else {
        byte & 15
    })
}

fn number_of(digits: &[u8]) -> u128 {
    let mut number = 0u128;
    let mut base = 10u128;
    for byte in digits {
        if *byte == b'x' {
            base = 16;
        } else {
            number = number.saturating_mul(base).saturating_add(digit_of(*byte));
        }
    }
    number
}

/// The word of a text without spaces.
pub fn word_of(alloc: Global, text: &[u8]) -> Result<Word<'_>, NoMemory> {
    let n = text.iter().take_while(|byte| **byte != b':').count();
    let mut numbers = Vec::new(alloc);
    for digits in behind(text, n.saturating_add(1)).split(|byte| *byte == b':') {
        numbers.push(number_of(digits))?;
    }
    Ok(Word {
        name: front(text, n),
        numbers,
    })
}

impl<'a> Word<'a> {
    /// How many numbers it has; 1 where it has none.
    pub fn len(&self) -> usize {
        self.numbers.len()
    }

    /// The k-th number from 0; 0 where there is none.
    pub fn number(&self, k: usize) -> u128 {
        match self.numbers.get(k) {
            Some(number) => *number,
            None => 0,
        }
    }

    /// The k-th number as a width, of 1 to 128 bits.
    pub fn width(&self, k: usize) -> u8
        ensures least { 1 ≤ result }
        ensures most { result ≤ 128 }
    {
        self.number(k).clamp(1, 128) as u8
    }

    /// The k-th number, at most 255.
    pub fn short(&self, k: usize) -> u8 {
        self.number(k).min(255) as u8
    }

    /// The k-th number, at most 2 ^ 32 - 1.
    pub fn long(&self, k: usize) -> u32 {
        self.number(k).min(4_294_967_295) as u32
    }

    /// The k-th number, at most 2 ^ 32 - 1, as one of twice the bits.
    pub fn longer(&self, k: usize) -> u64 {
        u64::from(self.long(k))
    }
}
