// Numbers of blocks.
ghost use Rattle.std.specs.Prelude.{◌≡◌};

/// The number of a block of a module, from 0, in the order in which blocks are opened.
#[derive(Clone, Copy, Debug, PartialEq, Eq, Hash)]
pub struct BlockId(pub u32);

impl BlockId {
    /// The place of the block in the table of all.
    pub fn index(self) -> usize
        ensures { result ≡ self.0 }
    {
        self.0 as usize
    }
}
