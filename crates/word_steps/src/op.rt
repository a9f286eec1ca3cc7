// What a step does.

/// What a step does with the words at its places `a`, `b` and `c`. All values are whole numbers below 2 ^ 128. The operators on which
/// only words of 128 bits are taken ("long") say so.
#[derive(Clone, Copy, Debug, PartialEq, Eq)]
pub enum Op {
    /// The word `a` as it is.
    Copy,
    /// `~a`, at the step's width.
    Inverse,
    /// `-a`, at the step's width.
    Negative,
    /// The reduction `&`, of as many bits as the step's width.
    AllOnes,
    /// The reduction `|`.
    AnyOne,
    /// `!`
    NoOne,
    /// The reduction `^`.
    OddOnes,
    /// `a + b`, at the step's width.
    Sum,
    /// `a - b`, at the step's width.
    Difference,
    /// `a * b`, at the step's width.
    Product,
    /// `a & b`
    And,
    /// `a | b`
    Or,
    /// `a ^ b`
    Xor,
    /// Long: `a ~^ b`, at the step's width.
    Xnor,
    /// Long: `a / b`, at the step's width; 0 where `b` is 0.
    Quotient,
    /// Long: `a % b`, at the step's width; 0 where `b` is 0.
    Remainder,
    /// Long: `a / b`, both signed values of the step's width.
    SignedQuotient,
    /// Long: `a % b`, both signed values of the step's width.
    SignedRemainder,
    /// `a == b`
    Equal,
    /// `a != b`
    Unequal,
    /// `a < b`
    Less,
    /// `a <= b`
    AtMost,
    /// Long: `a < b`, both signed values of the step's width.
    SignedLess,
    /// Long: `a <= b`, both signed values of the step's width.
    SignedAtMost,
    /// `a && b`
    Both,
    /// `a || b`
    Either,
    /// `a << b`, at the step's width.
    Left,
    /// `a >> b`
    Right,
    /// Long: `a >>> b`, a signed value of the step's width.
    Arithmetic,
    /// `a ? b : c`
    Choose,
    /// As many bits of `a` as the step's width, from bit `low` on.
    Select,
    /// `a` moved up by `low` bits and cut to the step's width, with the bits of `b` too.
    Join,
    /// `a`, a signed value whose top bit is bit `low`, at the step's width.
    Extend,
    /// `b` with other bits from `low` on, as many as the step's width: those of `a`.
    Place,
    /// Long: where a select at run time begins. `a` is the index, of the step's width, `b` the number that is taken from it. The place
    /// is given as a number that is greater by 128, and any that isn't less than 128 bits from the lowest bit as 0.
    Locate,
    /// Long: the same for an index that is a signed value.
    SignedLocate,
    /// Long: as many bits of `a` as the step's width, from the place on that `b` gives as `Locate` does.
    Pick,
    /// Long: `c`, a value of `low` bits, with other bits from the place on that `b` gives: those of `a`, as many as the step's width.
    PlaceAt,
    /// Passes over `c` steps where `a` is 0.
    SkipIfZero,
    /// Passes over `c` steps where `a == b`.
    SkipIfEqual,
    /// Passes over `c` steps unless `a == b`.
    SkipUnlessEqual,
    /// Passes over `c` steps unless `a < b`.
    SkipUnlessLess,
    /// Passes over `c` steps where `a < b`.
    SkipIfLess,
    /// Passes over `c` steps unless `a < b`, both signed values of the step's width.
    SkipUnlessSignedLess,
    /// Passes over `c` steps where `a < b`, both signed values of the step's width.
    SkipIfSignedLess,
    /// Passes over `c` steps.
    Skip,
}
