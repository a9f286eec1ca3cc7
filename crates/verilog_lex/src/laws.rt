// What the definition of tokens says of whole lists, without a walk over them. Each function here is a law: its contract.
ghost use Rattle.std.specs.Prelude.{◌≡◌, ℕ, Bool, List, Result};
ghost use Rattle.ls_text.specs.declared.place.Place.{Place};
ghost use Rattle.ls_text.specs.declared.source_file.SourceFile.{SourceFile};
ghost use Rattle.ls_text.specs.Readings.{TextFault};
ghost use Rattle.ls_text.specs.declared.piece.Piece.{Piece};
ghost use Rattle.verilog_lex.specs.Lexemes.{Lexeme, text_lexemes};
ghost use Rattle.verilog_lex.specs.Stretches.{Stretch, Stretches, placed};
ghost use Rattle.verilog_lex.specs.Tokens.{Said, lexeme_tokens, tokens};
ghost use Rattle.verilog_lex.specs.Groups.{Group, Groups, group_tokens};
ghost use Rattle.verilog_lex.specs.Readings.{Reads};

/// A text is cut into stretches in one way, and its lexemes are the stretches that are no gaps.
#[tactic(none)]
pub fn stretches_of_texts()
    // Each text has its stretches, one behind the other.
    ensures cut { (text : List ℕ) → (ss : List Stretch) × Stretches text ss }
    // It has no others.
    ensures only { (text : List ℕ) (ss zs : List Stretch) → Stretches text ss → Stretches text zs → ss ≡ zs }
    // Its lexemes are those of its stretches, each with its place.
    ensures lexemes { (fixed : Bool) (at : Place) (text : List ℕ) (ss : List Stretch)
        → Stretches text ss → text_lexemes fixed at text ≡ placed fixed at ss }
{}

/// Lexemes are grouped in one way, and each group is a token.
#[tactic(none)]
pub fn groups_of_lexemes()
    // All lexemes have their groups, one behind the other.
    ensures grouped { (ls : List Lexeme) → (gs : List Group) × Groups ls gs }
    // They have no others.
    ensures only { (ls : List Lexeme) (gs hs : List Group) → Groups ls gs → Groups ls hs → gs ≡ hs }
    // Their tokens are those of the groups, or the first group's fault.
    ensures tokens { (ls : List Lexeme) (gs : List Group) → Groups ls gs → lexeme_tokens ls ≡ group_tokens gs }
{}

/// The definition of tokens is the relation `Reads` and no more.
#[tactic(none)]
pub fn readings_of_pieces()
    // What the definition gives for pieces is a reading of them.
    ensures reads { (files : List SourceFile) (pieces : List Piece) → Reads files pieces (tokens files pieces) }
    // There is no other reading.
    ensures only { (files : List SourceFile) (pieces : List Piece) (read : Result (List Said) TextFault)
        → Reads files pieces read → read ≡ tokens files pieces }
{}
