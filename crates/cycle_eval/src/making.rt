// From a linked design to one that can be run.
ghost use Rattle.std.specs.Prelude.{◌≡◌, ◌≤◌, ◌<◌, ◌+◌, IfOk, IfErr, length};
ghost use Rattle.std.specs.Arc.{arc_value};
ghost use Rattle.state_layout.specs.Words.{words_of, IsTooManyWhere, register_widths};
ghost use Rattle.typed_ir.specs.Linkeds.{flat};
ghost use Rattle.cycle_eval.specs.Designs.{design_flat, work_of};

use crate::design::Design;
use design_steps::program_of;
use ls_text::Refusal;
use state_layout::{Layout, layout_of};
use std::alloc::Global;
use std::sync::Arc;
use typed_ir::Linked;

// Where the registers of a design stand in its states.
fn laid_out(alloc: Global, linked: &Linked) -> Result<Arc<Layout, Global>, Refusal>
    ensures made { IfOk result (λ layout. arc_value layout ≡ register_widths (flat linked.now.design)) }
    ensures few { IfOk result (λ _. words_of (register_widths (flat linked.now.design)) ≤ 65536) }
    ensures refused { IfErr result (IsTooManyWhere (65536 < words_of (register_widths (flat linked.now.design)))) }
{
    let layout = layout_of(alloc, linked)?;
    Ok(Arc::new(alloc, layout)?)
}

impl Design {
    /// The design, ready to run. Refused with 40 only where its registers take more than 65,536 words of 64 bits, and always there; else it fails at
    /// want of memory alone.
    pub fn make(alloc: Global, linked: Linked) -> Result<Design, Refusal>
        ensures made { IfOk result (λ design. design_flat design ≡ flat linked.design) }
        ensures work { IfOk result (λ design. work_of design ≡ length linked.design.nodes.items + length linked.design.clocked.items) }
        ensures few { IfOk result (λ _. words_of (register_widths (flat linked.design)) ≤ 65536) }
        ensures refused { IfErr result (IsTooManyWhere (65536 < words_of (register_widths (flat linked.design)))) }
    {
        let layout = laid_out(alloc, &linked)?;
        let program = program_of(alloc, &linked)?;
        Ok(Design {
            linked,
            layout,
            program,
        })
    }
}
