// Signals of blocks.
use crate::named_signal::NamedSignal;
use typed_ir::SignalId;

/// A signal of a block, with its number in the module.
#[derive(Clone, Copy, Debug)]
pub struct BlockSignal {
    pub number: SignalId,
    pub signal: NamedSignal,
}
