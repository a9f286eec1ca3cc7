// Parameters that an instance overrides.
use indexmap::IndexMap;
use ls_text::NameId;
use typed_ir::Const;

/// The values that an instance gives parameters by name, each once. A parameter is found by its hash.
#[derive(Drop)]
pub struct GivenParameters {
    pub values: IndexMap<NameId, Const>,
}
