// The values of the signals.
use bits::Bits;

/// What each signal has, by its number.
#[derive(Debug, Drop)]
pub struct Env {
    pub values: Vec<Bits>,
}
