// What readers tell is what the bytes ask for, however they are cut.
ghost use Rattle.std.specs.Prelude.{◌≡◌, ◌≤◌, ℕ, Bool, true, false, List, [], ◌∷◌, ◌++◌, length, codes, Result, Ok, Err, Some, None};
ghost use Rattle.ls_text.specs.Readings.{TextFault};
ghost use Rattle.command_read.specs.Asking.{Asked, Edits, Sets, Runs, Shows, Quits, fault_on};
ghost use Rattle.command_read.specs.Scripts.{asks, commands};
ghost use Rattle.command_read.specs.Readers.{left, next_number, has_ended, asked_of, HandsOut};
ghost use Rattle.command_read.specs.Runs.{Continues, HasTold};
ghost use Rattle.command_read.specs.Formed.{AsksFormed, AsksFormedFirst};
ghost use Rattle.command_read.specs.declared.reader.Reader.{Reader};

/// What a reader has told since its beginning is what the bytes ask for that it has kept: it holds at the beginning and from call to call,
/// and where nothing is left to hand out that is all. So readers of the same bytes have told the same, in whatever pieces these came.
#[tactic(none)]
pub fn readers_tell_what_bytes_ask_for()
    ensures begins { (r : Reader) → left r ≡ [] → next_number r ≡ 1 → HasTold r [] [] }
    ensures goes_on { (old new : Reader) (bytes kept : List ℕ) (before now : List (Result Asked TextFault)) → HasTold old bytes before
        → (has_ended old ≡ true → (kept ≡ []) × (has_ended new ≡ true)) → HandsOut old new now kept → HasTold new (bytes ++ kept) (before ++ now) }
    ensures all { (r : Reader) (bytes : List ℕ) (told : List (Result Asked TextFault)) (end : Bool) → HasTold r bytes told → has_ended r ≡ end
        → asked_of r [] end ≡ [] → told ≡ asks end 1 bytes }
    ensures any_pieces { (x y : Reader) (bytes : List ℕ) (a b : List (Result Asked TextFault)) (end : Bool) → HasTold x bytes a → HasTold y bytes b
        → has_ended x ≡ end → has_ended y ≡ end → asked_of x [] end ≡ [] → asked_of y [] end ≡ [] → a ≡ b }
{}

/// The commands of a script that is cut anywhere begin those of the script.
#[tactic(none)]
pub fn cut_scripts_begin_whole_ones()
    ensures asked { (end : Bool) (number : ℕ) (bytes more : List ℕ) → Continues (asks false number bytes) (asks end number (bytes ++ more)) }
    ensures commands { (bytes more : List ℕ) (end : Bool) → length bytes ≤ 67108864
        → Continues (commands bytes false) (commands (bytes ++ more) end) }
{}

/// Each command that bytes ask for is of its form, and so is the first one, which a reader hands out.
#[tactic(none)]
pub fn asked_commands_are_formed()
    ensures each { AsksFormed }
    ensures first { AsksFormedFirst }
{}

/// Scripts whose commands are worked out by hand.
#[tactic(none)]
pub fn scripts_are_worked_out()
    ensures lines { commands (codes "run 5\n# x\nshow a") true ≡ Ok (Runs 1 5) ∷ Ok (Shows 3 (codes "a")) ∷ [] }
    ensures cut { commands (codes "run 5\n# x\nshow a") false ≡ Ok (Runs 1 5) ∷ [] }
    ensures refused { commands (codes "frob\nrun x\n") true ≡ Err (fault_on 60 1 (codes "frob" ∷ [])) ∷ Err (fault_on 61 2 (codes "x" ∷ [])) ∷ [] }
    ensures values { commands (codes "set d=03 e=g\nset d=1f") true ≡ Err (fault_on 61 1 (codes "e" ∷ [])) ∷ Ok (Sets 2 ((codes "d", 31) ∷ [])) ∷ [] }
    ensures block { commands (codes "edit\ntop t\nfile a\nx\r\n.\nend\nquit\nrun 1\n") true
        ≡ Ok (Edits (record { line = 1; top = Some (codes "t"); clock = None; files = (record { line = 3; name = codes "a"; text = codes "x\n" }) ∷ []; loads = []; ops = [] })) ∷ Ok (Quits 7) ∷ [] }
    ensures unfinished { commands (codes "edit\ntop top\n") true ≡ Err (fault_on 66 1 []) ∷ [] }
    ensures unended { commands (codes "edit\ntop top\n") false ≡ [] }
{}
