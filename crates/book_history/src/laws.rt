// What holds of every legal history, in whatever order its entries came. Each function here is a law: its contract.
ghost use Rattle.std.specs.Prelude.{◌≡◌, ℕ, ◌+◌, ◌≤◌, List, [], ◌∷◌, ◌++◌, Bool, true, false, length, Option, Some};
ghost use Rattle.book_history.specs.declared.who.Who.{Who};
ghost use Rattle.book_history.specs.declared.who.Who.TheVariants.{Session};
ghost use Rattle.book_history.specs.Book.{Settings, Event, Book, Segment, DrawnTicket, Claims, Installs, replay, replay_from, lead, all_joined, chosen, cycles};
ghost use Rattle.book_history.specs.Truth.{True, OutsAreCurrent, SettledIsTruth, EndsAtCycle, LeadsInTruth};
ghost use Rattle.book_history.specs.Legal.{Legal};
ghost use Rattle.book_history.specs.Rooms.{AreInRooms, count_all, no_entry, one_if};
ghost use Rattle.book_history.specs.Law.{InstallIsRight, LeadFallsNot, AreCalm, lead_in, record_in, record_of};
ghost use Rattle.book_history.specs.Outs.{IsOutFor, tickets_drawn};
ghost use Rattle.book_history.specs.Moments.{moments_from};
ghost use Rattle.book_history.specs.Outline.{outline_in, outline_from, blank, last_until, VersionIs};
ghost use Rattle.book_history.specs.Owned.{owned};
ghost use Rattle.book_history.specs.Readers.{IsOpened, links_in};
ghost use Rattle.book_history.specs.Tickets.{is_drawn, is_used};
ghost use Rattle.book_history.specs.declared.link.Link.TheVariants.{Open, Joined};
ghost use Rattle.book_history.specs.Worked.{tally, always_valid, settings, links_and_marks, mark, reloaded_once, settled_first, settled_second, settled_all, claimed_twice, stale_once, stale_results, thinned, first_of};

use machine::Machine;

/// The core law: what every legal history makes of its book. With `prefixes` it holds at each place of a history.
#[tactic(none)]
pub fn legal_histories<M: Machine>()
    // What comes first in a legal history is legal.
    ensures prefixes { (st : Settings) (xs ys : List (Event M M.Row M.Ops)) → Legal M.kit M.valid st (xs ++ ys) → Legal M.kit M.valid st xs }
    // The replayed book is true.
    ensures is_true { (st : Settings) (h : List (Event M M.Row M.Ops)) → Legal M.kit M.valid st h → True M.kit M.fits (replay M.kit st h) }
    // The last mark stands at the current cycle.
    ensures ends { (st : Settings) (h : List (Event M M.Row M.Ops)) → Legal M.kit M.valid st h → EndsAtCycle (replay M.kit st h) }
    // Each mark up to the end of the leading joined links is the run of the record from reset.
    ensures leading { (st : Settings) (h : List (Event M M.Row M.Ops)) → Legal M.kit M.valid st h → LeadsInTruth M.kit (replay M.kit st h) }
    // Where all links are joined, the last mark is the run of the whole record from reset.
    ensures settled { (st : Settings) (h : List (Event M M.Row M.Ops)) → Legal M.kit M.valid st h → SettledIsTruth M.kit (replay M.kit st h) }
    // The record is the rows of the runs.
    ensures record { (st : Settings) (h : List (Event M M.Row M.Ops)) → Legal M.kit M.valid st h → record_in (replay M.kit st h) ≡ record_of h }
    // The entries stay in their rooms, with a place kept for each ticket that is out.
    ensures rooms { (st : Settings) (h : List (Event M M.Row M.Ops)) → Legal M.kit M.valid st h → AreInRooms st (count_all no_entry h) (replay M.kit st h) }
    // The ticket of each link that is out is current.
    ensures outs { (st : Settings) (h : List (Event M M.Row M.Ops)) → Legal M.kit M.valid st h → OutsAreCurrent (replay M.kit st h) }
    // An install joins exactly where its ticket is current; where it doesn't, version, record, marks and links stay.
    ensures installs { (st : Settings) (xs ys : List (Event M M.Row M.Ops)) (n : ℕ) (j : Bool) (by : Who)
        → Legal M.kit M.valid st (xs ++ Installs n j by ∷ ys) → InstallIsRight M.kit st (replay M.kit st xs) n j by }
    // What is settled falls only at a reload, and at a run that thins; and so does the number of leading joined links.
    ensures leads { (st : Settings) (xs ys : List (Event M M.Row M.Ops)) (e : Event M M.Row M.Ops)
        → Legal M.kit M.valid st (xs ++ e ∷ ys) → LeadFallsNot M.kit st (replay M.kit st xs) e }
    // The session's claim and its install, with neither run nor reload between, join at least one leading link more,
    // whatever else stands between.
    ensures settles { (st : Settings) (xs es ys : List (Event M M.Row M.Ops)) (n a b : ℕ) (j : Bool)
        → AreCalm es → Legal M.kit M.valid st (xs ++ Claims n a b Session ∷ (es ++ Installs n j Session ∷ ys))
        → (j ≡ true) × (lead_in (replay M.kit st xs) + 1 ≤ lead_in (replay M.kit st (xs ++ Claims n a b Session ∷ (es ++ Installs n j Session ∷ [])))) }
{}

/// What a history says of its tickets holds of the replayed book.
#[tactic(none)]
pub fn tickets_of_histories<M: Machine>()
    // A ticket that is out stays so until an entry uses it up.
    ensures still_out { (st : Settings) (h es : List (Event M M.Row M.Ops)) (n : ℕ) (t : DrawnTicket M M.State M.Row) (by : Who)
        → IsOutFor (replay M.kit st h) n t by → is_used n es ≡ false → IsOutFor (replay M.kit st (h ++ es)) n t by }
    // The number of the next ticket is new to the history.
    ensures next_is_new { (st : Settings) (h : List (Event M M.Row M.Ops)) → Legal M.kit M.valid st h → (n : ℕ)
        → n ≡ tickets_drawn (replay M.kit st h) + 1 → (is_drawn n h ≡ false) × (is_used n h ≡ false) }
    // The ticket of a claim is new at its place.
    ensures claims_new { (st : Settings) (xs ys : List (Event M M.Row M.Ops)) (n a b : ℕ) (by : Who)
        → Legal M.kit M.valid st (xs ++ Claims n a b by ∷ ys) → (is_drawn n xs ≡ false) × (is_used n xs ≡ false) }
{}

/// The session's own entries alone decide the outline of a history's book, which is its version, machine, record and the
/// cycles of its marks; and what other entries leave of the book.
#[tactic(none)]
pub fn outlines_of_histories<M: Machine>()
    ensures owned { (st : Settings) (h : List (Event M M.Row M.Ops)) → Legal M.kit M.valid st h → outline_in (replay M.kit st h) ≡ outline_from st blank (owned h) }
    // More entries lead from outline to outline.
    ensures more { (st : Settings) (h es : List (Event M M.Row M.Ops)) → Legal M.kit M.valid st (h ++ es)
        → outline_in (replay M.kit st (h ++ es)) ≡ outline_from st (outline_in (replay M.kit st h)) es }
    // A book has a version from 1 on, and no more versions than the session has entries.
    ensures versions { (st : Settings) (h : List (Event M M.Row M.Ops)) → Legal M.kit M.valid st h → VersionIs (replay M.kit st h) (count_all no_entry h).session }
    // The session's own entries are those that are counted against its room, and at most one close.
    ensures counts { (st : Settings) (h : List (Event M M.Row M.Ops)) → Legal M.kit M.valid st h
        → (count_all no_entry h).session + one_if (count_all no_entry h).closed ≡ length (owned h) }
    // They alone decide how many these are, and whether there is a close.
    ensures owned_counts { (h : List (Event M M.Row M.Ops)) → ((count_all no_entry h).session ≡ (count_all no_entry (owned h)).session) × ((count_all no_entry h).closed ≡ (count_all no_entry (owned h)).closed) }
    // Entries of others are neither a run nor a reload, leave the number of links, and make no fewer links lead.
    ensures others_calm { (zs : List (Event M M.Row M.Ops)) → owned zs ≡ [] → AreCalm zs }
    ensures others_links { (st : Settings) (h zs : List (Event M M.Row M.Ops)) → owned zs ≡ [] → Legal M.kit M.valid st (h ++ zs)
        → links_in (replay M.kit st (h ++ zs)) ≡ links_in (replay M.kit st h) }
    ensures others_lead { (st : Settings) (h zs : List (Event M M.Row M.Ops)) → owned zs ≡ [] → Legal M.kit M.valid st (h ++ zs)
        → lead_in (replay M.kit st h) ≤ lead_in (replay M.kit st (h ++ zs)) }
{}

/// How a history that goes on is read, and how the marks of a book are.
#[tactic(none)]
pub fn places_of_histories<M: Machine>()
    ensures replays { (st : Settings) (b : Option (Book M M.State M.Row)) (xs ys : List (Event M M.Row M.Ops))
        → replay_from M.kit st b (xs ++ ys) ≡ replay_from M.kit st (replay_from M.kit st b xs) ys }
    ensures moments { (st : Settings) (b : Option (Book M M.State M.Row)) (xs ys : List (Event M M.Row M.Ops))
        → moments_from M.kit st b (xs ++ ys) ≡ moments_from M.kit st b xs ++ moments_from M.kit st (replay_from M.kit st b xs) ys }
    // A book that was opened stays so.
    ensures opened { (st : Settings) (b : Option (Book M M.State M.Row)) (es : List (Event M M.Row M.Ops)) → IsOpened b → IsOpened (replay_from M.kit st b es) }
    // Where as many links lead as there are, all are joined.
    ensures all_lead { (xs : List (Segment M.State)) → length xs ≤ lead xs → all_joined xs ≡ true }
    // The cycle that a reload chooses is one of the marks' cycles, of which there are as many as links.
    ensures chosen { (limit a : ℕ) (xs : List (Segment M.State)) → chosen limit a xs ≡ last_until limit a (cycles xs) }
    ensures marks { (xs : List (Segment M.State)) → length (cycles xs) ≡ length xs }
{}

/// What the definitions make of histories that were worked by hand.
#[tactic(none)]
pub fn worked_histories()
    // Five cycles, a mark at each even one; the reload simulates the last cycle alone.
    ensures reload { links_and_marks (replay tally (settings 2 1) reloaded_once) ≡ mark Open 2 6 ∷ mark Open 4 12 ∷ mark Joined 5 16 ∷ [] }
    // A result that differs from its mark takes its place.
    ensures first { links_and_marks (replay tally (settings 2 1) settled_first) ≡ mark Joined 2 8 ∷ mark Open 4 12 ∷ mark Joined 5 16 ∷ [] }
    // So does the second one, which opens the next link: the reload had joined it.
    ensures second { links_and_marks (replay tally (settings 2 1) settled_second) ≡ mark Joined 2 8 ∷ mark Joined 4 16 ∷ mark Open 5 16 ∷ [] }
    ensures all { links_and_marks (replay tally (settings 2 1) settled_all) ≡ mark Joined 2 8 ∷ mark Joined 4 16 ∷ mark Joined 5 20 ∷ [] }
    ensures all_legal { Legal tally always_valid (settings 2 1) settled_all }
    // A second install for a link that is joined changes nothing.
    ensures twice { links_and_marks (replay tally (settings 2 1) claimed_twice) ≡ mark Joined 2 8 ∷ mark Open 4 12 ∷ mark Joined 5 16 ∷ [] }
    ensures twice_legal { Legal tally always_valid (settings 2 1) claimed_twice }
    // A result of an older version joins nothing: marks and links are those of the second reload.
    ensures once { links_and_marks (replay tally (settings 2 1) stale_once) ≡ mark Open 2 6 ∷ mark Open 4 12 ∷ mark Joined 5 17 ∷ [] }
    ensures once_legal { Legal tally always_valid (settings 2 1) stale_once }
    ensures stale { links_and_marks (replay tally (settings 2 1) stale_results) ≡ mark Joined 2 10 ∷ mark Joined 4 20 ∷ mark Joined 5 25 ∷ [] }
    ensures stale_legal { Legal tally always_valid (settings 2 1) stale_results }
    // 1,025 marks are thinned to 513, and the first link is from cycle 0 to 2 and open.
    ensures thins { length (links_and_marks (replay tally (settings 1 1) thinned)) ≡ 512 }
    ensures merges { first_of (links_and_marks (replay tally (settings 1 1) thinned)) ≡ Some (mark Open 2 6) }
    ensures thins_legal { Legal tally always_valid (settings 1 1) thinned }
{}
