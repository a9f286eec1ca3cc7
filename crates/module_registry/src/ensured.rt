// How many units were built, and how many were there.

/// Of the keys that were asked for: how many units were built, and how many were held before.
#[derive(Clone, Copy, Debug, PartialEq, Eq)]
pub struct Ensured {
    pub built: u32,
    pub kept: u32,
}
