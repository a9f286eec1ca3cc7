// A version that can be run.
use crate::key_list::KeyList;
use crate::texts::Texts;
use cycle_eval::Design;

/// A version: its texts, its design, the distinct keys of this in the order of the first instance that has each, how many units were built for
/// these keys, and how many were there.
#[derive(Drop)]
pub struct Planned {
    pub texts: Texts,
    pub design: Design,
    pub keys: KeyList,
    pub built: u32,
    pub kept: u32,
}
