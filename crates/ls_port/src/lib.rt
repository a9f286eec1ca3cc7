// The outside: where bytes come from and go to, how often that failed, and where threads pause.
//
// `Source` and `Sink` are the traits that the program is written over. `MemSource`, `MemSink`, `SolidSource` and `SolidSink` stand for them in
// memory, `StdSource` and `StdSink` on the streams of std. `Shelf` gives files by their names: `MemShelf` and `SolidShelf` from memory, `FileShelf`
// from the folder that the program is run in. A shelf in memory has texts (`named_text`), of which `given_text` gives the one that is asked for and
// writes that down (`shelf_answer`). For the folder `file_names` tells which names stay below it, and `opened_text` reads what was opened. A source
// that fails answers `failed`, a sink `sink_refusal`, a shelf `shelf_refusal`. `Gate` is a pause point of threads before a step (`gate_step`); at
// `open_gate` nobody waits.
#![tactic(auto)]

mod failed;
mod file_names;
mod file_shelf;
mod gate;
mod gate_step;
mod given_text;
mod mem_shelf;
mod mem_sink;
mod mem_source;
mod named_text;
mod open_gate;
mod opened_text;
mod shelf;
mod shelf_answer;
mod shelf_refusal;
mod sink;
mod sink_refusal;
mod solid_shelf;
mod solid_sink;
mod solid_source;
mod source;
mod std_sink;
mod std_source;

pub use failed::Failed;
pub use file_names::stays_below;
pub use file_shelf::FileShelf;
pub use gate::Gate;
pub use gate_step::GateStep;
pub use mem_shelf::MemShelf;
pub use mem_sink::MemSink;
pub use mem_source::MemSource;
pub use named_text::NamedText;
pub use open_gate::OpenGate;
pub use opened_text::whole_text;
pub use shelf::Shelf;
pub use shelf_answer::ShelfAnswer;
pub use shelf_refusal::ShelfRefusal;
pub use sink::Sink;
pub use sink_refusal::SinkRefusal;
pub use solid_shelf::SolidShelf;
pub use solid_sink::SolidSink;
pub use solid_source::SolidSource;
pub use source::Source;
pub use std_sink::StdSink;
pub use std_source::StdSource;
