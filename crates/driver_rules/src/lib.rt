// The items of a module to which of them drives or writes which of its bits, or to the first fault of their targets and blocks.
//
// `driving` is the call. It goes over the items three times: `targeting` finds what may not be written by what writes it, with the signals that
// combinational blocks write (`settling`); `taking` gives each bit to its item (`numbering`, with the `numbers` that come next), in runs (`running`),
// each a `driver` with the node or the clocked block that has it (`driver_id`, `clocked_id`), and finds the bits that two have; `pathing` finds reads
// before writes and latches. `spanning` has the parts of an item, `showing` the mention of a part (`shown`).
#![tactic(auto, using(width_rules::proofs::Firsts::earlier, width_rules::proofs::Firsts::later, width_rules::proofs::Firsts::neither))]

mod clocked_id;
mod driver;
mod driver_id;
mod driving;
mod numbering;
mod numbers;
mod pathing;
mod running;
mod settling;
mod showing;
mod shown;
mod spanning;
mod taking;
mod targeting;

pub use clocked_id::ClockedId;
pub use driver::Driver;
pub use driver_id::DriverId;
pub use driving::drivers;
pub use settling::settled_signals;
