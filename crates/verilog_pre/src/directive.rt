// The compiler directives.

/// What the word behind a backquote says.
#[derive(Clone, Copy, Debug, PartialEq, Eq)]
pub enum Directive {
    Define,
    Undef,
    Ifdef,
    Ifndef,
    Elsif,
    Else,
    Endif,
    /// The rest of the line is skipped.
    RestOfLine,
    NoEffect,
    /// The use of a macro.
    Use,
}
