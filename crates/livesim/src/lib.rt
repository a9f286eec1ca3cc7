// The top call: a script's bytes come in, reply bytes go out.
//
// `live` reads the words of the command line, makes the book, its turn and the session, and has workers beside the script: `lending` lends it to them, as
// `lent_work`. `carrying` goes command after command: `turning` reads one and has the session carry it out, which comes to a `turn`, and `writing` writes
// its lines before more is read. `ending` says how the reading ended, `outcome` how the run did. `laws` says that what a run writes is decided by what
// comes in.
#![tactic(auto)]

mod carrying;
mod ending;
mod laws;
mod lending;
mod lent_work;
mod live;
mod outcome;
mod turn;
mod turning;
mod writing;

pub use laws::runs_have_one_output;
pub use live::live_run;
pub use outcome::Outcome;
