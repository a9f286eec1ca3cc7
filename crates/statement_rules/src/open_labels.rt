// All labels of an item of a case.
ghost use Rattle.std.specs.Prelude.{◌≤◌};

use crate::open_label::OpenLabel;

/// The labels of an item of a case: the length of the longest of them, at most 128, and whether all are signed.
#[derive(Drop)]
pub struct OpenLabels {
    pub labels: Vec<OpenLabel>,
    pub length: u8,
    pub signed: bool,
    ghost at_most_128: { length ≤ 128 },
}
