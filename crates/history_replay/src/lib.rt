// A plain replay of a history of designs, for tests. It calls nothing of the book: of designs only what any machine has, and their registers, for which
// reg_transform's `check` says whether operations hold (`are_valid` of `states`); of the history only what its readers tell.
//
// `is_right` reads a history, and `replaying` takes its entries one by one. `replay` is what the entries so far make of a book: a version, marks
// (`mark`, each with its state, `own_state`) with links between them, and tickets (`drawn`). A run adds marks (`running`), a reload carries them over or
// simulates them again (`reloading`), claims and installs go by the links (`links`), and behind each entry the joined links are run again (`truth`), as
// a check of the replay itself. `counts` are the entries against the rooms of the history (`settings`), `states` what a design makes of states.
//
// `is_over` says whether a history ends with a close and no ticket is out (`ending`).
//
// What the entries make of a book is open to `replay_tests`, which looks at its marks.
#![tactic(auto)]

mod counts;
mod drawn;
pub mod ending;
mod links;
pub mod mark;
pub mod own_state;
mod reloading;
pub mod replay;
pub mod replaying;
mod running;
pub mod settings;
pub mod states;
pub mod truth;

pub use ending::is_over;
pub use replaying::is_right;
