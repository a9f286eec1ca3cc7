// What is so of scripts, beside how they are made.
ghost use Rattle.load_maker.specs.Lengths.{AreShort};

/// The script of at most 4,096 stages has at most 488 bytes, and 51 for each stage.
#[tactic(none)]
pub fn scripts_are_short()
    ensures { AreShort }
{}
