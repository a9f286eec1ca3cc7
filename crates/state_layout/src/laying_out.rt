// From a linked design to the slots of its registers.
ghost use Rattle.std.specs.Prelude.{◌≡◌, ◌≤◌, ◌<◌, IsTrue, IfOk, IfErr, map, length};
ghost use Rattle.typed_ir.specs.Flats.{are_below};
ghost use Rattle.typed_ir.specs.Linkeds.{flat};
ghost use Rattle.state_layout.specs.Words.{words_of, IsTooManyWhere, register_widths, width_in};

use crate::layout::Layout;
use ls_text::Refusal;
use std::alloc::Global;
use typed_ir::{Linked, Signal, SignalId};

/// The layout of these registers, in their order, where their numbers are places among the signals. Refused with 40 only where they take more than
/// 65,536 words of 64 bits, and always there; else it fails at want of memory alone.
pub fn laid_out(
    alloc: Global,
    signals: &[Signal],
    registers: &[SignalId],
) -> Result<Layout, Refusal>
    requires { IsTrue (are_below registers.now (length signals.now)) }
    ensures made { IfOk result (λ l. l ≡ map (width_in signals.now) registers.now) }
    ensures few { IfOk result (λ l. words_of l ≤ 65536) }
    ensures refused { IfErr result (IsTooManyWhere (65536 < words_of (map (width_in signals.now) registers.now))) }
{
    let mut layout = Layout::new(alloc);
    for register in registers {
        let place = register.index();
        let signal = &signals[place];
        layout.add(alloc, signal.width)?;
    }
    Ok(layout)
}

/// The layout of a design's registers, as `laid_out` gives it.
pub fn layout_of(alloc: Global, linked: &Linked) -> Result<Layout, Refusal>
    ensures made { IfOk result (λ l. l ≡ register_widths (flat linked.now.design)) }
    ensures few { IfOk result (λ _. words_of (register_widths (flat linked.now.design)) ≤ 65536) }
    ensures refused { IfErr result (IsTooManyWhere (65536 < words_of (register_widths (flat linked.now.design)))) }
{
    laid_out(alloc, &linked.design.signals, &linked.design.registers)
}
