// What a run writes is decided by what comes in.
ghost use Rattle.std.specs.Prelude.{◌≡◌, ℕ, Bool, List, map};
ghost use Rattle.ls_port.specs.declared.shelf_answer.ShelfAnswer.{ShelfAnswer};
ghost use Rattle.live_session.specs.Entries.{bare};
ghost use Rattle.live_session.specs.Logs.{Log};
ghost use Rattle.live_session.specs.Settings.{Settings};
ghost use Rattle.livesim.specs.Outputs.{WritesAll};

use live_session::{commands_have_one_output, histories_have_one_output};

/// Two runs without a worker's entry, under the same options, over the script of the same bytes, which were taken or made, ended or not, that were given the
/// same answers by their shelves have written the same, where neither the sink nor want of memory stopped them: estimates and the answers to settles too.
/// And their histories have the same entries, without the designs, the rows and the operations of these, which hold numbers of names; the commands fix
/// those by their texts.
#[tactic(none)]
pub fn runs_have_one_output()
    ensures outputs { (st : Settings) (bytes : List ℕ) (ended : Bool) (given : List ShelfAnswer) (out other : List ℕ) (j k : Log)
        → WritesAll st bytes ended given out j → WritesAll st bytes ended given other k → out ≡ other }
    ensures entries { (st : Settings) (bytes : List ℕ) (ended : Bool) (given : List ShelfAnswer) (out other : List ℕ) (j k : Log)
        → WritesAll st bytes ended given out j → WritesAll st bytes ended given other k → map bare j.events ≡ map bare k.events }
{
    commands_have_one_output();
    histories_have_one_output();
}
