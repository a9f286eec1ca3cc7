// What steps make of words of 128 bits.
ghost use Rattle.std.specs.Prelude.{◌≡◌, ◌≤◌, ◌<◌, ◌+◌, ◌-◌, ◌*◌, ◌/◌, ◌%◌, ◌^◌, bit_or, true, false, if◌then◌else◌, pos, ◌-ℤ◌};
ghost use Rattle.bits.specs.Values.{resized};
ghost use Rattle.bits.specs.Runs.{selected, replaced, replaced_within};
ghost use Rattle.typed_ir.specs.Sized.{apply_unary, apply_arithmetic, apply_comparison, apply_shift, truth_value, place_of};
ghost use Rattle.typed_ir.specs.declared.unary_operator.UnaryOperator.TheVariants.{Inverse, Negative, AllOnes};
ghost use Rattle.typed_ir.specs.declared.arithmetic_operator.ArithmeticOperator.TheVariants.{Sum, Difference, Product, Quotient, Remainder, Xnor};
ghost use Rattle.typed_ir.specs.declared.comparison.Comparison.TheVariants.{Less, AtMost};
ghost use Rattle.typed_ir.specs.declared.shift_operator.ShiftOperator.TheVariants.{Left, Arithmetic};
ghost use Rattle.typed_ir.specs.declared.signedness.Signedness.TheVariants.{Signed};
ghost use Rattle.typed_ir.specs.Sized.{signedness_of};
ghost use Rattle.word_steps.specs.Walks.{lowest, located, place_at};

use bits::Bits;

// The greatest value of a width.
fn ones(width: u8) -> u128
    requires at_least_one { 1 ≤ width }
    requires at_most_128 { width ≤ 128 }
    ensures { result ≡ 2 ^ width - 1 }
{
    u128::MAX >> (128 - width)
}

/// So many of the lowest bits.
pub fn cut(x: u128, width: u8) -> u128
    requires at_least_one { 1 ≤ width }
    requires at_most_128 { width ≤ 128 }
    ensures { result ≡ lowest width x }
{
    x & ones(width)
}

pub fn inverse(x: u128, width: u8) -> u128
    requires at_least_one { 1 ≤ width }
    requires at_most_128 { width ≤ 128 }
    ensures { result ≡ apply_unary Inverse width (lowest width x) }
{
    cut(!x, width)
}

pub fn negative(x: u128, width: u8) -> u128
    requires at_least_one { 1 ≤ width }
    requires at_most_128 { width ≤ 128 }
    ensures { result ≡ apply_unary Negative width (lowest width x) }
{
    cut(0u128.wrapping_sub(x), width)
}

/// Whether all of so many bits are 1.
pub fn all_ones(x: u128, width: u8) -> u128
    requires at_least_one { 1 ≤ width }
    requires at_most_128 { width ≤ 128 }
    ensures { result ≡ apply_unary AllOnes width x }
{
    (x == ones(width)) as u128
}

pub fn sum(x: u128, y: u128, width: u8) -> u128
    requires at_least_one { 1 ≤ width }
    requires at_most_128 { width ≤ 128 }
    ensures { result ≡ apply_arithmetic Sum width x y }
{
    cut(x.wrapping_add(y), width)
}

pub fn difference(x: u128, y: u128, width: u8) -> u128
    requires at_least_one { 1 ≤ width }
    requires at_most_128 { width ≤ 128 }
    ensures { result ≡ apply_arithmetic Difference width x (lowest width y) }
{
    cut(x.wrapping_sub(y), width)
}

pub fn product(x: u128, y: u128, width: u8) -> u128
    requires at_least_one { 1 ≤ width }
    requires at_most_128 { width ≤ 128 }
    ensures { result ≡ apply_arithmetic Product width x y }
{
    cut(x.wrapping_mul(y), width)
}

pub fn xnor(x: u128, y: u128, width: u8) -> u128
    requires at_least_one { 1 ≤ width }
    requires at_most_128 { width ≤ 128 }
    ensures { result ≡ apply_arithmetic Xnor width (lowest width x) (lowest width y) }
{
    Bits::new(width, x).xor(Bits::new(width, y)).not().value
}

pub fn quotient(x: u128, y: u128, width: u8, signed: bool) -> u128
    requires at_least_one { 1 ≤ width }
    requires at_most_128 { width ≤ 128 }
    ensures { result ≡ apply_arithmetic (Quotient (signedness_of signed)) width (lowest width x) (lowest width y) }
{
    Bits::new(width, x).div(Bits::new(width, y), signed).value
}

pub fn remainder(x: u128, y: u128, width: u8, signed: bool) -> u128
    requires at_least_one { 1 ≤ width }
    requires at_most_128 { width ≤ 128 }
    ensures { result ≡ apply_arithmetic (Remainder (signedness_of signed)) width (lowest width x) (lowest width y) }
{
    Bits::new(width, x).rem(Bits::new(width, y), signed).value
}

/// Whether one signed value is less than another.
pub fn is_signed_less(x: u128, y: u128, width: u8) -> bool
    requires at_least_one { 1 ≤ width }
    requires at_most_128 { width ≤ 128 }
    ensures { result ≡ apply_comparison (Less Signed) width (lowest width x) (lowest width y) }
{
    Bits::new(width, x).lt(Bits::new(width, y), true)
}

/// 1 where one signed value is less than another.
pub fn signed_less(x: u128, y: u128, width: u8) -> u128
    requires at_least_one { 1 ≤ width }
    requires at_most_128 { width ≤ 128 }
    ensures { result ≡ truth_value (apply_comparison (Less Signed) width (lowest width x) (lowest width y)) }
{
    is_signed_less(x, y, width) as u128
}

/// Whether one signed value isn't greater than another.
pub fn signed_at_most(x: u128, y: u128, width: u8) -> u128
    requires at_least_one { 1 ≤ width }
    requires at_most_128 { width ≤ 128 }
    ensures { result ≡ truth_value (apply_comparison (AtMost Signed) width (lowest width x) (lowest width y)) }
{
    !Bits::new(width, y).lt(Bits::new(width, x), true) as u128
}

pub fn left(x: u128, y: u128, width: u8) -> u128
    requires at_least_one { 1 ≤ width }
    requires at_most_128 { width ≤ 128 }
    ensures { result ≡ apply_shift Left width x y }
{
    if y >= 128 {
        return 0;
    }
    cut(x << y, width)
}

pub fn right(x: u128, y: u128) -> u128
    ensures { result ≡ x / 2 ^ y }
{
    if y >= 128 {
        return 0;
    }
    x >> y
}

/// The shift of a signed value.
pub fn arithmetic(x: u128, y: u128, width: u8) -> u128
    requires at_least_one { 1 ≤ width }
    requires at_most_128 { width ≤ 128 }
    ensures { result ≡ apply_shift Arithmetic width (lowest width x) y }
{
    Bits::new(width, x).sar(Bits::new(128, y)).value
}

/// One value above another.
pub fn join(x: u128, y: u128, width: u8, low: u8) -> u128
    requires at_least_one { 1 ≤ width }
    requires at_most_128 { width ≤ 128 }
    requires low { low < 128 }
    ensures { result ≡ bit_or (x * 2 ^ low % 2 ^ width) y }
{
    cut(x << low, width) | y
}

/// A signed value at another width.
pub fn extend(x: u128, width: u8, low: u8) -> u128
    requires at_least_one { 1 ≤ width }
    requires at_most_128 { width ≤ 128 }
    requires low { low + 1 < 128 }
    ensures { result ≡ resized (low + 1) (lowest (low + 1) x) width true }
{
    Bits::new(low + 1, x).resize(width, true).value
}

/// `y` with other bits from `low` on, `width` of them: those of `x`.
pub fn place(x: u128, y: u128, width: u8, low: u8) -> u128
    requires some { 1 ≤ width }
    requires within { low + width ≤ 128 }
    ensures { result ≡ replaced y low width x }
{
    let mask = ones(width) << low;
    (y & !mask) | ((x & ones(width)) << low)
}

// A place as a word: how far it lies above -128, or 0 where it is 128 bits or more from the lowest bit.
fn from_below(index: u128, below: u128) -> u128
    ensures { result ≡ located (pos index -ℤ pos below) }
{
    if index < below {
        return 128u128.saturating_sub(below - index);
    }
    let at = index - below;
    if at < 128 { at + 128 } else { 0 }
}

/// Where a select at run time begins.
pub fn locate(x: u128, y: u128, width: u8) -> u128
    requires at_least_one { 1 ≤ width }
    requires at_most_128 { width ≤ 128 }
    ensures { result ≡ located (place_of y false width (lowest width x)) }
{
    from_below(cut(x, width), y)
}

/// Where a select at run time begins whose index is a signed value.
pub fn signed_locate(x: u128, y: u128, width: u8) -> u128
    requires at_least_one { 1 ≤ width }
    requires at_most_128 { width ≤ 128 }
    ensures { result ≡ located (place_of y true width (lowest width x)) }
{
    let index = cut(x, width);
    if index < 1u128 << (width - 1) {
        return from_below(index, y);
    }
    let far = ones(width) - index;
    127u128.saturating_sub(far.saturating_add(y))
}

// The place that a word tells.
fn place_at(x: u128) -> i16
    ensures { result ≡ place_at x }
{
    (x & 255) as i16 - 128
}

/// Bits from a place that is known at run time.
pub fn pick(x: u128, y: u128, width: u8) -> u128
    requires at_least_one { 1 ≤ width }
    requires at_most_128 { width ≤ 128 }
    ensures { result ≡ selected x (place_at y) width }
{
    Bits::new(128, x).select(place_at(y), width).value
}

/// A value of `total` bits with other bits from a place that is known at run time.
pub fn put_at(x: u128, y: u128, z: u128, width: u8, total: u8) -> u128
    requires at_least_one { 1 ≤ width }
    requires at_most_128 { width ≤ 128 }
    requires some { 1 ≤ total }
    requires few { total ≤ 128 }
    ensures { result ≡ replaced_within total (lowest total z) (place_at y) width (lowest width x) }
{
    Bits::new(total, z)
        .replace(place_at(y), Bits::new(width, x))
        .value
}
