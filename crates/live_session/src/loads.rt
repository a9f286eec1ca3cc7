// What came of the loads of a block.
use ls_text::{Fault, SourceFile};

/// The files that a block loads, in line order, or the first fault among its loads: 67 where the shelf failed, 10 where a text is too long.
#[derive(Debug, Drop)]
pub enum Loads {
    Given(Vec<SourceFile>),
    Refused(Fault),
}
