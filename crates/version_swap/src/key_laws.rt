// What the text of a job's key tells of its unit, and what a module's spelling tells of the module.
ghost use Rattle.std.specs.Prelude.{◌≡◌, ℕ, List, length, map, Ok};
ghost use Rattle.std.specs.List.{All};
ghost use Rattle.ls_text.specs.declared.piece.Piece.{Piece};
ghost use Rattle.ls_text.specs.declared.source_file.SourceFile.{SourceFile};
ghost use Rattle.ls_text.specs.Texts.{Grows, HasEachOnce};
ghost use Rattle.verilog_lex.specs.declared.token.Token.{Token};
ghost use Rattle.verilog_lex.specs.Ends.{EndsOnce};
ghost use Rattle.verilog_lex.specs.Readings.{Reads};
ghost use Rattle.verilog_lex.specs.Views.{IsNamed, said};
ghost use Rattle.verilog_ast.specs.declared.module.Module.{Module};
ghost use Rattle.verilog_ast.specs.Views.{declaration_of, declarations_of};
ghost use Rattle.verilog_parse.specs.Files.{Stands};
ghost use Rattle.version_swap.specs.Spelled.{IsSpelledUnder};
ghost use Rattle.version_swap.specs.Unplaced.{unplaced_declaration};
ghost use Rattle.module_registry.specs.declared.build_job.BuildJob.{BuildJob};
ghost use Rattle.module_registry.specs.Building.{Built};
ghost use Rattle.module_registry.specs.Jobs.{job_text};
ghost use Rattle.unit_build.specs.Building.{built};
ghost use Rattle.version_swap.specs.UnplacedFindings.{answer_unplaced};
ghost use Rattle.typed_ir.specs.declared.instance.Instance.{Instance};
ghost use Rattle.gen_unroll.specs.Unrolled.{turn_limit};
ghost use Rattle.elaborate.specs.declared.limits.Limits.{Limits};
ghost use Rattle.elaborate.specs.Trees.{tree};
ghost use Rattle.elaborate.specs.TreeViews.{instance_view};
ghost use Rattle.unit_jobs.specs.Jobs.{InstanceJob, tree_jobs};
ghost use Rattle.unit_jobs.specs.JobViews.{job_view};
ghost use Rattle.version_swap.specs.InstancesTold.{IsInstanceTold, HasNamesIn};
ghost use Rattle.version_swap.specs.JobsUnder.{IsJobUnder};
ghost use Rattle.version_swap.specs.Told.{IsTold, HasSameParts};

/// Two modules of one spelling under one table of names are the same but for places.
#[tactic(none)]
pub fn one_spelling_is_one_module()
    ensures { (names : List (List ℕ)) (x y : Module) → HasEachOnce names → IsSpelledUnder names x → IsSpelledUnder names y
        → x.spelling ≡ y.spelling → unplaced_declaration (declaration_of x.body) ≡ unplaced_declaration (declaration_of y.body) }
{}

/// The modules of a text that is read and parsed are spelled under its table of names, and under each table that it grows to.
#[tactic(none)]
pub fn parsed_modules_are_spelled()
    ensures parsed { (names : List (List ℕ)) (files : List SourceFile) (pieces : List Piece) (s : List Token) (xs : List Module)
        → Reads files pieces (Ok (map (said names) s)) → All (IsNamed (length names)) s → EndsOnce s → Stands names xs s
        → All (IsSpelledUnder names) xs }
    ensures grown { (old new : List (List ℕ)) (x : Module) → Grows old new → IsSpelledUnder old x → IsSpelledUnder new x }
{}

/// Two jobs of one key text under one table of names have the same spelling, values of parameters, clock and instances. So they have one
/// unit, or the same first fault but for where it is shown. A job under a table is one under each table that it grows to.
#[tactic(none)]
pub fn keys_tell_units()
    ensures parts { (names : List (List ℕ)) (a b : BuildJob) → HasEachOnce names → IsTold names a → IsTold names b
        → job_text names a ≡ job_text names b → HasSameParts a b }
    ensures units { (names : List (List ℕ)) (a b : BuildJob) (u : Built) → HasEachOnce names → IsJobUnder names a → IsJobUnder names b
        → job_text names a ≡ job_text names b → built a ≡ Ok u → built b ≡ Ok u }
    ensures faults { (names : List (List ℕ)) (a b : BuildJob) → HasEachOnce names → IsJobUnder names a → IsJobUnder names b
        → job_text names a ≡ job_text names b → answer_unplaced (built a) ≡ answer_unplaced (built b) }
    ensures grown { (old new : List (List ℕ)) (job : BuildJob) → Grows old new → IsJobUnder old job → IsJobUnder new job }
{}

/// The instances of an elaborated tree are told under its table of names, and under each table that this one grows to: the name of each is a
/// word of the table, and its clock, if any, is one of its own ports.
#[tactic(none)]
pub fn elaborated_instances_are_told()
    ensures { (l : Limits) (texts known new : List (List ℕ)) (ms : List Module) (top clock : ℕ) (xs : List Instance)
        → All (IsSpelledUnder texts) ms → Grows known new
        → tree l texts (declarations_of ms) top clock ≡ Ok (map (instance_view known) xs) → All (IsInstanceTold new) xs }
{}

/// The jobs that are made of an elaborated tree are jobs under the table of names behind them.
#[tactic(none)]
pub fn jobs_are_under()
    ensures { (l : Limits) (texts known old new : List (List ℕ)) (ms : List Module) (top clock : ℕ) (xs : List Instance)
        (jobs : List InstanceJob) (js : List BuildJob) → All (IsSpelledUnder texts) ms → Grows known new → All (IsSpelledUnder old) ms
        → Grows old new → l.turns ≡ turn_limit → tree l texts (declarations_of ms) top clock ≡ Ok (map (instance_view known) xs)
        → tree_jobs old ms xs ≡ Ok jobs → map (job_view new) js ≡ jobs → All (HasNamesIn new) js → All (IsJobUnder new) js }
{}
