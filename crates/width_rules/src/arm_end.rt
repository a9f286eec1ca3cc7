// Where the walk over the items of a case stands.
use typed_ir::Mention;

/// The number of the next name, and what the first default so far mentions.
#[derive(Drop)]
pub struct ArmEnd {
    pub next: u32,
    pub otherwise: Option<Vec<Mention>>,
}
