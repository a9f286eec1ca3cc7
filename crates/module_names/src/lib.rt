// The modules of a design by their names, each with the names that an instance of it has to know.
//
// A `name_order` has names in an order and finds one by its hash. `parameters`, `ports` and `inputs` make those of a module, and `naming`
// puts them together, as `module_names`. `modules` has them of all modules, and `finding` finds one by the hash of its name.
#![tactic(auto)]

mod finding;
mod inputs;
mod module_names;
mod modules;
mod name_order;
mod naming;
mod parameters;
mod ports;

pub use module_names::ModuleNames;
pub use modules::Modules;
pub use name_order::NameOrder;
