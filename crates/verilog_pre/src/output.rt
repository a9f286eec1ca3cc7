// The pieces so far.
use ls_text::Piece;

/// The pieces so far, and how many uses and bytes the limits leave.
#[derive(Drop)]
pub struct Output {
    pub uses: u32,
    pub bytes: u32,
    pub pieces: Vec<Piece>,
}
