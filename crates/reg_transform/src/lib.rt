// Operations on the registers of an edited design: whether they hold, and what the registers of the new design take from the old one.
//
// `regs` is what is known of the registers of a design, `register_layout` has their slots beside it, and `reading` goes over them, each with its
// module and its name (`qualified_name`). `checking` finds the first operation that breaks a condition (`op_fault`, `op_refusal`): `greatest_values`
// has what fits the registers of each name, `named` what earlier operations have named, `breaches` puts conditions one after the other (`breach`).
// `carrying` takes the state of the old registers over: `numbering` gives the paths of both designs' instances numbers (`path_numbers`), name by name
// (`path_step`), `old_values` finds old values by these and the registers' names (`register_key`), and `changes` what the operations say of a
// register.
#![tactic(auto)]

mod breach;
mod breaches;
mod carrying;
mod changes;
mod checking;
mod greatest_values;
mod named;
mod numbering;
mod old_values;
mod op_fault;
mod op_refusal;
mod path_numbers;
mod path_step;
mod qualified_name;
mod reading;
mod register_key;
mod register_layout;
mod regs;

pub use carrying::carry_state;
pub use checking::check;
pub use op_fault::OpFault;
pub use op_refusal::OpRefusal;
pub use reading::signal_at;
pub use register_layout::RegisterLayout;
pub use regs::Regs;
