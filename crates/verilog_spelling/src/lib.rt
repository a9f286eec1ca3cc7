// From tokens to their one spelling, by which two texts of one module are the same (`texts`).
#![tactic(auto)]

mod texts;

pub use texts::spelling;
