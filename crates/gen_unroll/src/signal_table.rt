// The signals of a module.
ghost use Rattle.std.specs.Prelude.{◌≡◌, ◌<◌, ◌^◌, ℕ, map, length, Some};
ghost use Rattle.gen_unroll.specs.Numbers.{number_of_name, in_block};
ghost use Rattle.gen_unroll.specs.PlaceViews.{place_in};
ghost use Rattle.gen_unroll.specs.Rows.{row_in};
ghost use Rattle.gen_unroll.specs.SignalViews.{signal_of};

use crate::block_signal::BlockSignal;
use crate::first_places::FirstPlaces;
use crate::named_signal::NamedSignal;
use typed_ir::SignalId;

/// The signals of a module by their numbers, the ports of the header first, in its order, and these numbers in the order of the
/// declarations. A name of the module itself is found by its hash, and a block has a list of its signals.
#[derive(Drop)]
pub struct ModuleSignals {
    pub signals: Vec<NamedSignal>,
    pub declared: Vec<SignalId>,
    pub(crate) names: FirstPlaces,
    pub(crate) blocks: Vec<Vec<BlockSignal>>,
    ghost small: { length signals.items < 2 ^ 32 },
    ghost own: { (q : ℕ) → place_in names q ≡ number_of_name q (map signal_of signals.items) },
    ghost within: { (b : ℕ) → row_in blocks.items b ≡ in_block (Some b) (map signal_of signals.items) },
}
