// What a line of a block says.
use ls_text::NameId;
use reg_ops::RegOp;

/// What a line of a block says outside of texts.
#[derive(Clone, Copy, Debug, PartialEq, Eq)]
pub enum BlockLine {
    Skipped,
    Top(NameId),
    Clock(NameId),
    /// A file whose text follows.
    File(NameId),
    Load(NameId),
    Op(RegOp),
}
