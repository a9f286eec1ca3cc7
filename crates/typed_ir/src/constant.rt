// Values of constants.
use bits::Bits;

/// The value of a constant expression, and whether it is signed.
#[derive(Clone, Copy, Debug, PartialEq, Eq)]
pub struct Const {
    pub bits: Bits,
    pub signed: bool,
}
