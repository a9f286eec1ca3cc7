// What doesn't hang on the table of names with which a version is read.
ghost use Rattle.std.specs.Prelude.{◌≡◌, ℕ, List, map, Option, Result};
ghost use Rattle.ls_text.specs.declared.name_id.NameId.{NameId};
ghost use Rattle.ls_text.specs.declared.source_file.SourceFile.{SourceFile};
ghost use Rattle.ls_text.specs.Readings.{TextFault};
ghost use Rattle.ls_text.specs.Texts.{HasEachOnce};
ghost use Rattle.version_swap.specs.OnePlan.{IsSameName, IsSamePlan, IsSameTop, file_text};
ghost use Rattle.version_swap.specs.Plans.{DesignOfTexts, Plans};

/// Files come to one design or one fault, whatever table their names are read with and whatever numbers these have: two plans of files with the
/// same texts, whose tops and clocks have the same texts, are one fault, or one design with the same texts of its keys. Its signals have the same
/// paths and modules by their texts, and all else of a design has no names.
#[tactic(none)]
pub fn plans_are_one()
    ensures { (names others : List (List ℕ)) (files again : List SourceFile) (top up : Option NameId) (clock net : NameId)
        (x y : Result DesignOfTexts TextFault) → HasEachOnce names → HasEachOnce others → map file_text files ≡ map file_text again
        → IsSameTop names others top up → IsSameName names others clock net → Plans names files top clock x → Plans others again up net y
        → IsSamePlan names others x y }
{}
