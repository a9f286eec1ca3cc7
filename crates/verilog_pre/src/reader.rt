// What has been read so far.
use crate::conditional::Conditional;
use crate::macros::Macros;
use crate::output::Output;

/// The macros that are known, the pieces so far, and the conditionals that are open.
#[derive(Drop)]
pub struct Reader {
    pub macros: Macros,
    pub out: Output,
    pub nest: Vec<Conditional>,
}
