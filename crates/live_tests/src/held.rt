// What follows a script once workers are held.

/// The script that follows, how the reply begins at which the gate lets go, and the read of this script and the write of the whole run that
/// fail, by their numbers from 0.
#[derive(Clone, Copy)]
pub struct Held<'a> {
    pub script: &'a [u8],
    pub at: &'a [u8],
    pub read: u64,
    pub write: u64,
}
