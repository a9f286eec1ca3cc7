// Connections of an instance, by the names in reach alone: each to a port, and the clock to one input.
//
// `connecting` has the connections by name and by order; `clock_free` finds a mention of the clock in an expression, a target or a
// statement, and `clocking` the clock port of each instance of an item, and a clock or an event where it may not stand.
#![tactic(auto)]

mod clock_free;
mod clocking;
mod connecting;

pub use clocking::{clock_item, port_free, variables_free};
pub use connecting::connected;
