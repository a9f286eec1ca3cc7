// What a reader finds at the front.

/// What stands at the front of the bytes that a reader holds, by places in these.
#[derive(Clone, Copy, Debug, PartialEq, Eq)]
pub enum Item {
    /// A line outside of blocks.
    Line {
        end: usize,
        next: usize,
    },
    /// A block: where the lines between its `edit` and its `end` begin and end, where the next line begins, and how many lines it has.
    Block {
        body: usize,
        end: usize,
        next: usize,
        lines: u64,
    },
    /// A block that the input's end cuts.
    Open,
}
