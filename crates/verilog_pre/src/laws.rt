// What the definitions of reading files, a directive, a macro's body and the use of a macro come to.
ghost use Rattle.std.specs.Prelude.{◌≡◌, ℕ, Bool, not, ◌&&◌, ◌||◌, List, [], ◌∷◌, length, Some, Result};
ghost use Rattle.ls_text.specs.declared.place.Place.{Place};
ghost use Rattle.ls_text.specs.declared.source_file.SourceFile.{SourceFile};
ghost use Rattle.ls_text.specs.Readings.{TextFault};
ghost use Rattle.ls_text.specs.declared.piece.Piece.{Piece};
ghost use Rattle.verilog_pre.specs.Parts.{Part, Use};
ghost use Rattle.verilog_pre.specs.declared.conditional.Conditional.{Conditional};
ghost use Rattle.verilog_pre.specs.declared.directive.Directive.TheVariants as directive;
ghost use Rattle.verilog_pre.specs.Branches.{any, branch_after};
ghost use Rattle.verilog_pre.specs.Conditionals.{is_taken, first_branch, next_branch, opened, closed};
ghost use Rattle.verilog_pre.specs.Heads.{depth_behind};
ghost use Rattle.verilog_pre.specs.Bodies.{body_parts, body_len};
ghost use Rattle.verilog_pre.specs.BodyStretches.{Body};
ghost use Rattle.verilog_pre.specs.Expansions.{Output, Context, expanded};
ghost use Rattle.verilog_pre.specs.FileReadings.{HavePieces};
ghost use Rattle.verilog_pre.specs.Obeys.{Carries};
ghost use Rattle.verilog_pre.specs.Reading.{Read, directive_read, text_read, pieces};
ghost use Rattle.verilog_pre.specs.States.{State};
ghost use Rattle.verilog_pre.specs.Stretches.{Reads};
ghost use Rattle.verilog_pre.specs.Uses.{Expands};

/// A text is read as the stretches that stand in it say, and in no other way.
#[tactic(none)]
pub fn texts_are_stretches()
    ensures whole { (at : Place) (offset : ℕ) (st : State) (text : List ℕ)
        → Reads at offset st text (text_read at offset st text) }
    ensures only { (at : Place) (offset : ℕ) (st : State) (text : List ℕ) (r : Result State TextFault)
        → Reads at offset st text r → r ≡ text_read at offset st text }
{}

/// The body of a macro has the parts and the bytes that the stretches at the front of the text say, and no others.
#[tactic(none)]
pub fn bodies_are_stretches()
    ensures whole { (file offset : ℕ) (text : List ℕ) → Body file offset text (body_parts file offset text) (body_len text) }
    ensures only { (file offset : ℕ) (text : List ℕ) (parts : List Part) (n : ℕ) → Body file offset text parts n
        → (parts ≡ body_parts file offset text) × (n ≡ body_len text) }
{}

/// The use of a macro in a text gives the pieces, or the fault, that the relation on uses says, and no others.
#[tactic(none)]
pub fn uses_are_expansions()
    ensures whole { (c : Context) (word : List ℕ) (out : Output) → Expands c [] out (Use word ∷ []) (expanded c word out) }
    ensures only { (c : Context) (word : List ℕ) (out : Output) (r : Result Output TextFault)
        → Expands c [] out (Use word ∷ []) r → r ≡ expanded c word out }
{}

/// A directive does what the relation on directives says, and nothing else.
#[tactic(none)]
pub fn directives_are_obeyed()
    ensures whole { (at : Place) (offset : ℕ) (word : List ℕ) (st : State) (text : List ℕ)
        → Carries at offset word st text (directive_read at offset word st text) }
    ensures only { (at : Place) (offset : ℕ) (word : List ℕ) (st : State) (text : List ℕ) (r : Read)
        → Carries at offset word st text r → r ≡ directive_read at offset word st text }
{}

/// Files have the pieces, or the first fault, that the relation on files says, and no others.
#[tactic(none)]
pub fn files_have_pieces()
    ensures whole { (files : List SourceFile) → HavePieces files (pieces files) }
    ensures only { (files : List SourceFile) (r : Result (List Piece) TextFault) → HavePieces files r → r ≡ pieces files }
{}

/// Of the branches of a conditional, the first whose condition holds is read, where the text around is read; and how many
/// conditionals are open rises by one at an opening and falls by one at an end (IEEE 1364-2005, clause 19.4).
#[tactic(none)]
pub fn branches_are_chosen()
    ensures first { (around holds : Bool) → is_taken (first_branch around holds) ≡ (around && holds) }
    ensures next { (around first holds : Bool) (between : List Bool)
        → is_taken (next_branch (branch_after (first_branch around first) between) holds) ≡ (around && (not (first || any between) && holds)) }
    ensures opened { (at : Place) (negated holds : Bool) (nest : List Conditional)
        → length (opened at negated holds nest) ≡ depth_behind (length nest) directive.Ifdef }
    ensures closed { (nest next : List Conditional) → closed nest ≡ Some next → length next ≡ depth_behind (length nest) directive.Endif }
{}
