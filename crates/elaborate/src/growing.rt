// What the visits of a design keep.
use crate::job::Job;
use crate::limits::Limits;
use crate::standing::StandingInstance;
use crate::visit_key::VisitKey;
use indexmap::IndexMap;
use ls_text::NameId;
use std::alloc::Global;
use std::sync::Arc;

/// What the visits of a design keep: visits by their keys, the last one of each, the instances so far, and the modules on the path to the instance that
/// is visited.
#[derive(Drop)]
pub struct Growing {
    pub alloc: Global,
    pub limits: Limits,
    pub jobs: IndexMap<VisitKey, Arc<Job, Global>>,
    pub all: Vec<StandingInstance>,
    pub path: Vec<NameId>,
}
