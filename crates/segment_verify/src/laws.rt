// What the entries of a settle leave of a book, in whatever history they stand. Each function here is a law: its contract.
ghost use Rattle.std.specs.Prelude.{◌≡◌, ℕ, ◌+◌, ◌*◌, ◌≤◌, List, [], ◌∷◌, ◌++◌, length, Option};
ghost use Rattle.book_history.specs.Book.{Settings, Event, Book, Shows, replay, replay_from};
ghost use Rattle.book_history.specs.Legal.{Legal};
ghost use Rattle.book_history.specs.Moments.{moments_from};
ghost use Rattle.book_history.specs.Outline.{Outline, outline_in, outline_from};
ghost use Rattle.book_history.specs.Owned.{owned};
ghost use Rattle.book_history.specs.Readers.{links_in};
ghost use Rattle.book_history.specs.Rooms.{Counts, count_all};
ghost use Rattle.segment_verify.specs.Counted.{with_more};
ghost use Rattle.segment_verify.specs.Passes.{ArePasses, IsSettle, IsUnfinished};

use machine::Machine;

/// Passes leave the outline, have no moment, and are two entries of the session each.
#[tactic(none)]
pub fn passes_of_settles<M: Machine>()
    // All are the session's own.
    ensures owned { (n : ℕ) (es : List (Event M M.Row M.Ops)) → ArePasses n es → owned es ≡ es }
    ensures outline { (st : Settings) (o : Outline M M.Row) (n : ℕ) (es : List (Event M M.Row M.Ops)) → ArePasses n es → outline_from st o es ≡ o }
    // None is a command's own entry.
    ensures moments { (st : Settings) (b : Option (Book M M.State M.Row)) (n : ℕ) (es : List (Event M M.Row M.Ops))
        → ArePasses n es → moments_from M.kit st b es ≡ [] }
    // There is no close among them.
    ensures counts { (c : Counts) (n : ℕ) (es : List (Event M M.Row M.Ops)) → ArePasses n es → count_all c es ≡ with_more c (2 * n) }
    // A book has as many links behind them as before, which is the number of its outline's marks.
    ensures links { (st : Settings) (h : List (Event M M.Row M.Ops)) (n : ℕ) (es : List (Event M M.Row M.Ops)) → ArePasses n es
        → Legal M.kit M.valid st (h ++ es) → links_in (replay M.kit st (h ++ es)) ≡ links_in (replay M.kit st h) }
    ensures marks { (b : Option (Book M M.State M.Row)) → links_in b ≡ length (outline_in b).marks }
{}

/// A whole settle leaves the outline, and its one moment is its show.
#[tactic(none)]
pub fn whole_settles<M: Machine>()
    // All entries are the session's own.
    ensures owned { (n links : ℕ) (es : List (Event M M.Row M.Ops)) → IsSettle n links es → owned es ≡ es }
    ensures outline { (st : Settings) (o : Outline M M.Row) (n links : ℕ) (es : List (Event M M.Row M.Ops))
        → IsSettle n links es → outline_from st o es ≡ o }
    // Its show alone is a command's own entry.
    ensures moments { (st : Settings) (b : Option (Book M M.State M.Row)) (n links : ℕ) (es : List (Event M M.Row M.Ops))
        → (s : IsSettle n links es) → moments_from M.kit st b es ≡ record { entry = Shows s.answer; book = replay_from M.kit st b s.passes } ∷ [] }
    // It stands at a book with the outline of the book before.
    ensures shows { (st : Settings) (h : List (Event M M.Row M.Ops)) (n links : ℕ) (es : List (Event M M.Row M.Ops))
        → (s : IsSettle n links es) → Legal M.kit M.valid st (h ++ es)
        → outline_in (replay_from M.kit st (replay M.kit st h) s.passes) ≡ outline_in (replay M.kit st h) }
    // There is no close among them.
    ensures counts { (c : Counts) (n links : ℕ) (es : List (Event M M.Row M.Ops)) → (s : IsSettle n links es)
        → count_all c es ≡ with_more c (2 * s.count + 1) }
{}

/// An unfinished settle leaves the outline, and has no moment.
#[tactic(none)]
pub fn unfinished_settles<M: Machine>()
    // All entries are the session's own.
    ensures owned { (es : List (Event M M.Row M.Ops)) → IsUnfinished es → owned es ≡ es }
    ensures outline { (st : Settings) (o : Outline M M.Row) (es : List (Event M M.Row M.Ops)) → IsUnfinished es → outline_from st o es ≡ o }
    // None is a command's own entry.
    ensures moments { (st : Settings) (b : Option (Book M M.State M.Row)) (es : List (Event M M.Row M.Ops))
        → IsUnfinished es → moments_from M.kit st b es ≡ [] }
    // There is no close among them, and there are at most two more than in its passes.
    ensures counts { (c : Counts) (es : List (Event M M.Row M.Ops)) → IsUnfinished es → count_all c es ≡ with_more c (length es) }
    ensures few { (es : List (Event M M.Row M.Ops)) → (u : IsUnfinished es) → length es ≤ 2 * u.count + 2 }
{}
