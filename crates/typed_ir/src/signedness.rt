// Whether operands are read as signed values (IEEE Std 1364-2005, 5.5).
ghost use Rattle.std.specs.Prelude.{◌≡◌};
ghost use Rattle.typed_ir.specs.Sized.{is_signed, signedness_of};

/// How an operator reads its operands.
#[derive(Clone, Copy, Debug, PartialEq, Eq)]
pub enum Signedness {
    /// As whole numbers in two's complement.
    Signed,
    /// As natural numbers.
    Unsigned,
}

impl Signedness {
    /// Signed where the operands are.
    pub fn of(signed: bool) -> Signedness
        ensures { result ≡ signedness_of signed }
    {
        if signed {
            Signedness::Signed
        } else {
            Signedness::Unsigned
        }
    }

    /// Whether operands are read as signed values.
    pub fn is_signed(self) -> bool
        ensures { result ≡ is_signed self }
    {
        match self {
            Signedness::Signed => true,
            Signedness::Unsigned => false,
        }
    }
}
