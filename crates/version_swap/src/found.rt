// What is found of files before units are built.
use module_registry::BuildJob;
use typed_ir::InstanceTree;

/// The instances of a design, and the job of each.
#[derive(Drop)]
pub struct Found {
    pub tree: InstanceTree,
    pub jobs: Vec<BuildJob>,
}
