// What makes units on several threads.
ghost use Rattle.std.specs.Prelude.{◌≡◌, []};
ghost use Rattle.unit_forge.specs.Views.{jobs_made};

use module_registry::Key;
use std::alloc::Global;

/// Makes units of jobs on several threads, and knows the jobs that it made.
#[derive(Drop)]
pub struct RayonForge {
    // The keys of these jobs, in the order in which they were made. They share their jobs with the keys that were handed in.
    pub(crate) made: Vec<Key>,
}

impl RayonForge {
    /// Without a job that was made. It takes no memory.
    pub fn new(alloc: Global) -> RayonForge
        ensures { jobs_made result ≡ [] }
    {
        RayonForge {
            made: Vec::new(alloc),
        }
    }
}
