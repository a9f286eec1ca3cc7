// The stimulus: which inputs are set to what, cycle by cycle.
//
// A `Row` has the values of one cycle by their names, `setting` is one of them, and `settings` finds one. A `Record` (`recorded`) is one row
// a cycle, kept as runs of equal rows; `recording` adds rows, cuts them off and reads them, `lasting` changes the last run, and
// `record_refusal` says why rows may be refused.
#![tactic(auto)]

mod lasting;
mod record_refusal;
mod recorded;
mod recording;
mod row;
mod setting;
mod settings;

pub use record_refusal::RecordRefusal;
pub use recorded::Record;
pub use row::Row;
pub use setting::Setting;
