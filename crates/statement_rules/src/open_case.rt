// The items of a case whose length and sign aren't known yet.
ghost use Rattle.std.specs.Prelude.{◌≤◌};

use crate::open_arm::OpenArm;
use typed_ir::Stmt;

/// The items of a case so far: those with labels, the length of the longest label, 0 where there is none and at most 128, whether all
/// labels are signed, and the first default.
#[derive(Drop)]
pub struct OpenCase {
    pub arms: Vec<OpenArm>,
    pub length: u8,
    pub signed: bool,
    pub otherwise: Option<Box<Stmt>>,
    ghost at_most_128: { length ≤ 128 },
}
