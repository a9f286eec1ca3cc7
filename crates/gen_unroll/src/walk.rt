// What unrolling goes by.
use crate::step::Step;
use std::alloc::Global;
use typed_ir::Const;
use width_rules::Scope;

/// The names in reach, the overrides of the parameters that are still to come, how many blocks were opened, how many turns are left,
/// and the steps so far.
#[derive(Drop)]
pub struct Walk<'a, 'o> {
    pub alloc: Global,
    pub scope: Scope,
    pub overrides: &'o [Option<Const>],
    pub opened: u32,
    pub left: u32,
    pub steps: Vec<Step<'a>>,
}
