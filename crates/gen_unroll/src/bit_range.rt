// Ranges of declarations.
ghost use Rattle.std.specs.Prelude.{◌≤◌, ◌<◌, ◌^◌};

/// How many bits a range has, 1 to 128, and its low bound, below 2^31.
#[derive(Clone, Copy, Debug, PartialEq, Eq)]
pub struct BitRange {
    pub width: u8,
    pub low: u32,
    ghost at_least_one: { 1 ≤ width },
    ghost at_most_128: { width ≤ 128 },
    ghost below: { low < 2 ^ 31 },
}
