// The kinds of tokens.

/// What a token is. It has no fields, so that a terminal of the grammar is a kind.
#[derive(Clone, Copy, Debug, PartialEq, Eq)]
pub enum Kind {
    /// An identifier (IEEE 1364-2005, clause 3.7).
    Word,
    /// An integer constant (clause 3.5.1).
    Number,
    /// A sized constant with digits that match any bit (clause 3.5.1).
    Wild,
    /// What follows the last byte of the last file.
    End,

    // The reserved words that have a kind of their own (annex B).
    Module,
    EndModule,
    Input,
    Output,
    Wire,
    Reg,
    Signed,
    Parameter,
    LocalParam,
    Genvar,
    Generate,
    EndGenerate,
    Assign,
    Always,
    Posedge,
    Begin,
    /// `end`.
    BlockEnd,
    If,
    Else,
    Case,
    Casez,
    EndCase,
    Default,
    For,
    Or,
    /// Any other reserved word.
    Reserved,

    // Brackets and separators.
    LeftParen,
    RightParen,
    LeftBracket,
    RightBracket,
    LeftBrace,
    RightBrace,
    Comma,
    Semicolon,
    Colon,
    Dot,
    Hash,
    AtSign,
    /// `=`.
    Equal,
    Question,
    /// `+:`.
    PlusColon,
    /// `-:`.
    MinusColon,
    /// `->`.
    Arrow,

    // Operators (clause 5.1).
    Plus,
    Minus,
    Star,
    Slash,
    Percent,
    Ampersand,
    Bar,
    Caret,
    Tilde,
    Bang,
    Less,
    Greater,
    /// `<<`.
    ShiftLeft,
    /// `>>`.
    ShiftRight,
    /// `<<<`.
    SignedShiftLeft,
    /// `>>>`.
    SignedShiftRight,
    /// `<=`.
    LessEqual,
    /// `>=`.
    GreaterEqual,
    /// `==`.
    EqualEqual,
    /// `!=`.
    NotEqual,
    /// `===`.
    CaseEqual,
    /// `!==`.
    CaseNotEqual,
    /// `&&`.
    LogicalAnd,
    /// `||`.
    LogicalOr,
    /// `~&`.
    TildeAmpersand,
    /// `~|`.
    TildeBar,
    /// `~^`.
    TildeCaret,
    /// `^~`.
    CaretTilde,
    /// `**`.
    Power,
}
