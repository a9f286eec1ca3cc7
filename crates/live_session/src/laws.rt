// Files and commands have at most one answer, and displays tell the truth.
ghost use Rattle.std.specs.Prelude.{◌≡◌, ◌<◌, ◌∷◌, ℕ, true, List, ◌++◌, map, Option, Some, None, Ok};
ghost use Rattle.book_history.specs.Book.{Settings as BookSettings};
ghost use Rattle.book_history.specs.Legal.{Follows};
ghost use Rattle.book_history.specs.Moments.{moments_from};
ghost use Rattle.book_history.specs.Owned.{AllOwned};
ghost use Rattle.ls_port.specs.declared.shelf_answer.ShelfAnswer.{ShelfAnswer};
ghost use Rattle.command_read.specs.Asking.{Shows};
ghost use Rattle.wave_report.specs.Replies.{show_text};
ghost use Rattle.live_session.specs.Entries.{bare};
ghost use Rattle.live_session.specs.Files.{TextFile};
ghost use Rattle.live_session.specs.Judging.{any_refused, world_after};
ghost use Rattle.live_session.specs.Readings.{FilesRead, AreRight};
ghost use Rattle.live_session.specs.Logs.{LogEvent, LogMoment, kit, valid};
ghost use Rattle.live_session.specs.Replies.{answers_of, asked_of, lines, reply};
ghost use Rattle.live_session.specs.Scripts.{IsScript};
ghost use Rattle.live_session.specs.Settings.{Settings};
ghost use Rattle.live_session.specs.Shown.{answer_of};
ghost use Rattle.live_session.specs.Spelled.{Answer, Spelled};
ghost use Rattle.live_session.specs.Tables.{table_lines, true_registers};
ghost use Rattle.live_session.specs.Verdicts.{Told};
ghost use Rattle.live_session.specs.Worlds.{World, cycle, fresh};

/// Files with a top and a clock come to at most one answer, whatever table and numbers their names have.
#[tactic(none)]
pub fn texts_have_one_answer()
    ensures { (files : List TextFile) (top : Option (List ℕ)) (clock : List ℕ) (x y : Answer) → FilesRead files top clock x
        → FilesRead files top clock y → x ≡ y }
{}

/// Commands have at most one output over the same entries of a history, one world behind them and one verdict whether any is refused, and the entries
/// of the ones are those of the others, whatever is told of their texts and of what a shelf answers, as long as it is right and the answers of the
/// shelf begin one list.
#[tactic(none)]
pub fn commands_have_one_output()
    ensures lines { (st : Settings) (w : World) (ts us : List Told) (rest others : List ShelfAnswer) → AreRight st w ts
        → AreRight st w us → asked_of ts ≡ asked_of us → answers_of ts ++ rest ≡ answers_of us ++ others
        → (ms : List LogMoment) → lines st ts w ms ≡ lines st us w ms }
    ensures refused { (st : Settings) (w : World) (ts us : List Told) (rest others : List ShelfAnswer) → AreRight st w ts
        → AreRight st w us → asked_of ts ≡ asked_of us → answers_of ts ++ rest ≡ answers_of us ++ others
        → any_refused st ts w ≡ any_refused st us w }
    ensures world { (st : Settings) (w : World) (ts us : List Told) (rest others : List ShelfAnswer) → AreRight st w ts
        → AreRight st w us → asked_of ts ≡ asked_of us → answers_of ts ++ rest ≡ answers_of us ++ others
        → world_after st ts w ≡ world_after st us w }
    ensures scripts { (st : Settings) (w : World) (ts us : List Told) (rest others : List ShelfAnswer) → AreRight st w ts
        → AreRight st w us → asked_of ts ≡ asked_of us → answers_of ts ++ rest ≡ answers_of us ++ others
        → (es : List LogEvent) (ms : List LogMoment) → IsScript st ts w es ms → IsScript st us w es ms }
{
    texts_have_one_answer();
}

/// Commands have at most one output over whatever legal history without workers has their entries: the marks, the links and the states of its book
/// are fixed by the commands, so estimates and the answers to settles are too; and so are the entries, but for the numbers of names in what they hold.
#[tactic(none)]
pub fn histories_have_one_output()
    ensures lines { (st : Settings) (bs : BookSettings) (ts : List Told) (es fs : List LogEvent) → Follows kit valid bs es → Follows kit valid bs fs
        → AllOwned true es → AllOwned true fs → IsScript st ts fresh es (moments_from kit bs None es) → IsScript st ts fresh fs (moments_from kit bs None fs)
        → lines st ts fresh (moments_from kit bs None es) ≡ lines st ts fresh (moments_from kit bs None fs) }
    ensures entries { (st : Settings) (bs : BookSettings) (ts : List Told) (es fs : List LogEvent) → Follows kit valid bs es → Follows kit valid bs fs
        → AllOwned true es → AllOwned true fs → IsScript st ts fresh es (moments_from kit bs None es) → IsScript st ts fresh fs (moments_from kit bs None fs)
        → map bare es ≡ map bare fs }
{}

/// Whatever commands came before it, and whatever is told of it, a display of a design for which the session has room, and whose entry says that
/// all is settled, shows the registers of a run from reset on the record, and says so.
#[tactic(none)]
pub fn displays_tell_the_truth()
    ensures { (st : Settings) (before : List Told) (t : Told) (line : ℕ) (prefix : List ℕ) (design : Spelled) (m : LogMoment) (ms : List LogMoment)
        → let w = world_after st before fresh in
        t.asked ≡ Ok (Shows line prefix) → w.design ≡ Some design → w.charge < st.room → answer_of m.entry ≡ None
        → reply st t w (m ∷ ms)
        ≡ Some (show_text (cycle w) w.version ++ table_lines design prefix design.flat.registers (true_registers design w.record_ (cycle w)), ms) }
{}
