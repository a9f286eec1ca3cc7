// A cut of a body's text.
ghost use Rattle.std.specs.Prelude.{◌≡◌};
ghost use Rattle.verilog_pre.specs.Bodies.{cut_len, goes_on};

/// The first cut of a body's text, and how many bytes it has.
#[derive(Clone, Copy, Debug)]
pub enum BodyCut {
    Run(usize),
    Use(usize),
    /// A comment, or the end of a line that is continued.
    Gap(usize),
    /// A comment that isn't closed within the body's lines, with the rest of these lines.
    Open(usize),
    /// The end of the body, and the comment behind it.
    Last(usize),
}

impl BodyCut {
    /// How many bytes it has.
    pub fn len(self) -> usize
        ensures { result ≡ cut_len self }
    {
        match self {
            BodyCut::Run(n) => n,
            BodyCut::Use(n) => n,
            BodyCut::Gap(n) => n,
            BodyCut::Open(n) => n,
            BodyCut::Last(n) => n,
        }
    }

    /// Whether the body goes on behind it.
    pub fn goes_on(self) -> bool
        ensures { result ≡ goes_on self }
    {
        !matches!(self, BodyCut::Last(_))
    }
}
