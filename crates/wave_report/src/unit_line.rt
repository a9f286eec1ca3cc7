// A unit of a design, as a status shows it.
use ls_text::TextBytes;

/// A unit by the name of its module and the digest of its key.
#[derive(Debug, Drop)]
pub struct UnitLine {
    pub module: TextBytes,
    pub digest: [u8; 32],
}
