// Numbers for the paths of the instances of two designs.

/// A number for each instance of an older table and of a newer one: two instances have the same number where they have the same
/// path, whatever their own numbers are.
#[derive(Drop)]
pub struct PathNumbers {
    pub old: Vec<usize>,
    pub new: Vec<usize>,
}
