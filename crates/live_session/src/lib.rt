// A session: commands come in, each is answered by its lines.
//
// A session stands beside the checkpoint book of its versions: what runs, its marks and its history are the book's, and each command is a call of it.
//
// `session` has the calls and the table of names, the units and what makes them. `loading` reads the files that a block loads from a shelf (`loads`),
// `planning` makes the first version of a block, which opens the book (`begun`), or the next one, with which it is reloaded, and `running` is the
// design that runs, with its stimulus: `setting` changes the row, `advancing` runs cycles, `showing` is a display, `settling` verifies segments
// (`settle_answer`), and `telling` says what the session is at. `refusing` writes refusals. What a command comes to is a `reply`, and what a session
// may use stands in `limits`. `laws` says that commands have one output, whatever is told of their texts and whatever legal history without workers
// has their entries, and that displays tell the truth.
#![tactic(auto)]

mod advancing;
mod begun;
mod laws;
mod limits;
mod loading;
mod loads;
mod planning;
mod refusing;
mod reply;
mod running;
mod session;
mod setting;
mod settle_answer;
mod settling;
mod showing;
mod telling;

pub use laws::{
    commands_have_one_output, displays_tell_the_truth, histories_have_one_output,
    texts_have_one_answer,
};
pub use limits::Limits;
pub use reply::Reply;
pub use session::Session;
pub use settle_answer::SettleAnswer;
