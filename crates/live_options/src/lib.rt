// The words of the program's command line: how many workers it has, how it keeps its history, and whether its script is made.
//
// `reading` has `clap` read the words, takes the value of each option (`values`) and answers the `options`, or none for faulty words. `laws` says
// that options are within their bounds, and has words whose options are worked out by hand.
#![tactic(auto)]

pub mod laws;
mod options;
mod reading;
mod values;

pub use options::Options;
pub use reading::read_options;
