// How a row's designs are made.

/// How a row's designs are made: with at most so many nodes where a limit is given, and with one digest for all keys where they are alike.
#[derive(Clone, Copy)]
pub struct Way {
    pub most: Option<usize>,
    pub alike: bool,
}

/// Without a limit of its own, and with the digests that keys have.
pub const PLAIN: Way = Way {
    most: None,
    alike: false,
};

/// The same with one digest for all keys.
pub const ALIKE: Way = Way {
    most: None,
    alike: true,
};
