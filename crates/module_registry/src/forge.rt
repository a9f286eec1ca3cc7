// What makes units.
ghost use Rattle.std.specs.Prelude.{◌≡◌, ◌++◌, List, map, Ok, IfOk, IfErr, OnOk, OnErr};
ghost use Rattle.std.specs.declared.result.Result.{Result};
ghost use Rattle.ls_text.specs.declared.fault.Fault.{Fault};
ghost use Rattle.module_registry.specs.declared.build_job.BuildJob.{BuildJob};
ghost use Rattle.module_registry.specs.Building.{Built, Refuses, built_all};
ghost use Rattle.module_registry.specs.Keys.{jobs_of};
ghost use Rattle.module_registry.specs.UnitViews.{built_of};

use crate::key::Key;
use ls_text::Refusal;
use std::alloc::Global;
use typed_ir::Unit;

/// What makes units of jobs, by the help of an `R`, as a handle on threads.
pub trait Forge<R> {
    /// What a job gives: a unit or a fault.
    ghost builds: { BuildJob → Result Built Fault };

    /// The jobs that were made so far.
    ghost made: { Self → List BuildJob };

    /// What it asks of its help, as that threads may share it.
    ghost ready: { R → Type 0 };

    /// The units of the jobs of these keys, in their order. A refusal is the fault of the first job that has one, or want of memory.
    fn make(&mut self, rt: &R, alloc: Global, keys: &[Key]) -> Result<Vec<Unit>, Refusal>
        requires { ready rt.now }
        ensures units { IfOk result (λ us. built_all builds (jobs_of keys.now) ≡ Ok (map built_of us.items)) }
        ensures refused { IfErr result (λ e. Refuses e (built_all builds (jobs_of keys.now))) }
        ensures more { OnOk result (made self.new ≡ made self.old ++ jobs_of keys.now) }
        ensures none { OnErr result (made self.new ≡ made self.old) };
}
