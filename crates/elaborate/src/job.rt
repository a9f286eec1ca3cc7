// Modules that were visited.
use crate::visited::Visited;
use ls_text::NameId;
use typed_ir::Const;

/// A module that was visited under these overrides and with this clock port, and what was found.
#[derive(Drop)]
pub struct Job {
    pub instantiated: NameId,
    pub overrides: Vec<Option<Const>>,
    pub clock: Option<NameId>,
    pub visited: Visited,
}
