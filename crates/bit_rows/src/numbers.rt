// The numbers of a row.
ghost use Rattle.std.specs.Prelude.{◌≤◌};

use crate::number::Number;
use bits::Bits;
use ls_text::NoMemory;
use std::alloc::Global;

/// The numbers of a row, in hexadecimal, which spaces part; a `-` stands before one below zero.
#[derive(Drop)]
pub struct Numbers {
    list: Vec<Number>,
}

// What a digit stands for.
fn digit_of(byte: u8) -> u128 {
    u128::from(if byte >= b'a' {
        (byte & 15) + 9
    } else {
        byte & 15
    })
}

// The number of a word.
fn number_of(word: &[u8]) -> Number {
    let mut number = Number {
        below: false,
        size: 0,
    };
    for byte in word {
        if *byte == b'-' {
            number.below = true;
        } else {
            number.size = (number.size << 4) | digit_of(*byte);
        }
    }
    number
}

impl Numbers {
    /// The numbers of a text.
    pub fn read(alloc: Global, text: &[u8]) -> Result<Numbers, NoMemory> {
        let mut list = Vec::new(alloc);
        for word in text.split(|byte| *byte == b' ') {
            list.push(number_of(word))?;
        }
        Ok(Numbers { list })
    }

    // The k-th number from 0; 0 where there is none.
    fn get(&self, k: usize) -> Number {
        match self.list.get(k) {
            Some(number) => *number,
            None => Number {
                below: false,
                size: 0,
            },
        }
    }

    /// The k-th number from 0, whatever stands before it; 0 where there is none.
    pub fn value(&self, k: usize) -> u128 {
        self.get(k).size
    }

    /// The k-th number as a width, of 1 to 128 bits.
    pub fn width(&self, k: usize) -> u8
        ensures least { 1 ≤ result }
        ensures most { result ≤ 128 }
    {
        self.value(k).clamp(1, 128) as u8
    }

    /// The k-th number as a place, which may be below 0.
    pub fn place(&self, k: usize) -> i16 {
        let number = self.get(k);
        let size = number.size.min(32_768) as i32;
        let place = if number.below { -size } else { size };
        place.clamp(-32_768, 32_767) as i16
    }

    /// The value of the number behind the k-th, which is its width.
    pub fn bits(&self, k: usize) -> Bits {
        Bits::new(self.width(k), self.value(k.saturating_add(1)))
    }
}
