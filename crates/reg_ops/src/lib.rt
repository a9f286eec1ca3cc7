// Operations on the registers of an edited design.
//
// An edit may say what becomes of registers of a module, in each of its instances: one goes on under another name, a new one begins at a
// value, one is dropped (`reg_op`). `reg_ops` is a list of these.
#![tactic(auto)]

mod reg_op;
mod reg_ops;

pub use reg_op::RegOp;
pub use reg_ops::RegOps;
