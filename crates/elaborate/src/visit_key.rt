// Keys of visits.
use ls_text::NameId;

/// A module, a clock port, and a number that equal overrides share; others may share it too.
#[derive(Clone, Copy, PartialEq, Eq, Hash)]
pub struct VisitKey {
    pub instantiated: NameId,
    pub clock: Option<NameId>,
    pub digest: u64,
}
