// Declarations, connections and headers of a Verilog text, read exactly as the grammar says.
//
// `declaration` reads signs, ranges, names with their values and parameters from a cursor's tokens, `connection` overrides,
// instances and what they are connected to, and `headers` what follows a module's name: its parameters and then its ports. Each function
// ensures what the grammar machine does, and one phrase of the relation `Spells`; `laws` says where the parts of declarations stand.
#![tactic(auto)]

mod connection;
mod declaration;
mod headers;
mod laws;

pub use connection::{instances, overrides};
pub use declaration::{
    names, optional_net, optional_wire, parameter, parameters, reg_variables, shape, variable,
    variables,
};
pub use headers::header;
pub use laws::declarations_have_places;
