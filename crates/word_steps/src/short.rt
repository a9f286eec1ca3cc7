// What steps make of words of 64 bits.
ghost use Rattle.std.specs.Prelude.{◌≡◌, ◌≤◌, ◌<◌, ◌+◌, ◌-◌, ◌*◌, ◌/◌, ◌%◌, ◌^◌, bit_or, true};
ghost use Rattle.bits.specs.Values.{resized};
ghost use Rattle.bits.specs.Runs.{replaced};
ghost use Rattle.typed_ir.specs.Sized.{apply_unary, apply_arithmetic, apply_shift};
ghost use Rattle.typed_ir.specs.declared.unary_operator.UnaryOperator.TheVariants.{Inverse, Negative, AllOnes};
ghost use Rattle.typed_ir.specs.declared.arithmetic_operator.ArithmeticOperator.TheVariants.{Sum, Difference, Product};
ghost use Rattle.typed_ir.specs.declared.shift_operator.ShiftOperator.TheVariants.{Left};
ghost use Rattle.word_steps.specs.Walks.{lowest};

// The greatest value of a width of up to 64.
fn ones(width: u8) -> u64
    requires at_least_one { 1 ≤ width }
    requires at_most_64 { width ≤ 64 }
    ensures { result ≡ 2 ^ width - 1 }
{
    u64::MAX >> (64 - width)
}

/// So many of the lowest bits.
pub fn cut(x: u64, width: u8) -> u64
    requires at_least_one { 1 ≤ width }
    requires at_most_64 { width ≤ 64 }
    ensures { result ≡ lowest width x }
{
    x & ones(width)
}

pub fn inverse(x: u64, width: u8) -> u64
    requires at_least_one { 1 ≤ width }
    requires at_most_64 { width ≤ 64 }
    ensures { result ≡ apply_unary Inverse width (lowest width x) }
{
    cut(!x, width)
}

pub fn negative(x: u64, width: u8) -> u64
    requires at_least_one { 1 ≤ width }
    requires at_most_64 { width ≤ 64 }
    ensures { result ≡ apply_unary Negative width (lowest width x) }
{
    cut(0u64.wrapping_sub(x), width)
}

/// Whether all of so many bits are 1.
pub fn all_ones(x: u64, width: u8) -> u64
    requires at_least_one { 1 ≤ width }
    requires at_most_64 { width ≤ 64 }
    ensures { result ≡ apply_unary AllOnes width x }
{
    (x == ones(width)) as u64
}

pub fn sum(x: u64, y: u64, width: u8) -> u64
    requires at_least_one { 1 ≤ width }
    requires at_most_64 { width ≤ 64 }
    ensures { result ≡ apply_arithmetic Sum width x y }
{
    cut(x.wrapping_add(y), width)
}

pub fn difference(x: u64, y: u64, width: u8) -> u64
    requires at_least_one { 1 ≤ width }
    requires at_most_64 { width ≤ 64 }
    ensures { result ≡ apply_arithmetic Difference width x (lowest width y) }
{
    cut(x.wrapping_sub(y), width)
}

pub fn product(x: u64, y: u64, width: u8) -> u64
    requires at_least_one { 1 ≤ width }
    requires at_most_64 { width ≤ 64 }
    ensures { result ≡ apply_arithmetic Product width x y }
{
    cut(x.wrapping_mul(y), width)
}

pub fn left(x: u64, y: u64, width: u8) -> u64
    requires at_least_one { 1 ≤ width }
    requires at_most_64 { width ≤ 64 }
    ensures { result ≡ apply_shift Left width x y }
{
    if y >= 64 {
        return 0;
    }
    cut(x << y, width)
}

pub fn right(x: u64, y: u64) -> u64
    ensures { result ≡ x / 2 ^ y }
{
    if y >= 64 {
        return 0;
    }
    x >> y
}

/// One value above another.
pub fn join(x: u64, y: u64, width: u8, low: u8) -> u64
    requires at_least_one { 1 ≤ width }
    requires at_most_64 { width ≤ 64 }
    requires low { low < 64 }
    ensures { result ≡ bit_or (x * 2 ^ low % 2 ^ width) y }
{
    cut(x << low, width) | y
}

/// A signed value at another width.
pub fn extend(x: u64, width: u8, low: u8) -> u64
    requires at_least_one { 1 ≤ width }
    requires at_most_64 { width ≤ 64 }
    requires low { low + 1 < 64 }
    ensures { result ≡ resized (low + 1) (lowest (low + 1) x) width true }
{
    let value = cut(x, low + 1);
    if low + 1 < width && value >= 1u64 << low {
        return value + (ones(width) - ones(low + 1));
    }
    cut(value, width)
}

/// `y` with other bits from `low` on, `width` of them: those of `x`.
pub fn place(x: u64, y: u64, width: u8, low: u8) -> u64
    requires some { 1 ≤ width }
    requires within { low + width ≤ 64 }
    ensures { result ≡ replaced y low width x }
{
    let mask = ones(width) << low;
    (y & !mask) | ((x & ones(width)) << low)
}

/// The lower half of a word.
pub fn lower(x: u128) -> u64
    ensures { result ≡ lowest 64 x }
{
    (x & 0xffff_ffff_ffff_ffff) as u64
}
