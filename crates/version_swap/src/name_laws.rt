// What doesn't change in a flat design under other names.
ghost use Rattle.std.specs.Prelude.{◌≡◌, ℕ, List, map};
ghost use Rattle.ls_text.specs.declared.name_id.NameId.{NameId};
ghost use Rattle.verilog_ast.specs.Items.{ModuleDeclaration};
ghost use Rattle.verilog_ast.specs.Renaming.{declaration_as};
ghost use Rattle.typed_ir.specs.declared.instance.Instance.{Instance};
ghost use Rattle.elaborate.specs.Elaborated.{Standing};
ghost use Rattle.elaborate.specs.Findings.{standing_as};
ghost use Rattle.elaborate.specs.Renaming.{KeepsApart};
ghost use Rattle.version_swap.specs.Jobs.{instance_as};
ghost use Rattle.version_swap.specs.Copies.{Copies};
ghost use Rattle.version_swap.specs.DesignCopies.{NameTables, AreCopiesIn};
ghost use Rattle.version_swap.specs.Flat.{flat};
ghost use Rattle.version_swap.specs.FlatRenaming.{copies_as, flat_as, SpellAllSame};

/// The flat design of copies of modules under other names, of which no two become one, is the flat design of the copies under these names: the same
/// signals, registers, inputs, nodes and blocks, by the same numbers. Where the other names have the same texts, the copies of a design under other
/// names are its copies under these names.
#[tactic(none)]
pub fn names_may_change_in_flat_designs()
    ensures designs { (f : NameId → NameId) (copies : Copies) → KeepsApart f → flat (copies_as f copies) ≡ flat_as f (flat copies) }
    ensures copies { (f : NameId → NameId) (turns : ℕ) (ms : List ModuleDeclaration) (t u : NameTables) (instances : List Instance) (all : List Standing)
        (copies : Copies) → KeepsApart f → SpellAllSame f t u → AreCopiesIn turns ms t instances all copies
        → AreCopiesIn turns (map (declaration_as f) ms) u (map (instance_as f) instances) (map (standing_as f) all) (copies_as f copies) }
{}
