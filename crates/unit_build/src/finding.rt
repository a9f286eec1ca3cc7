// The ports of an instance by the hashes of their names.
ghost use Rattle.std.specs.Prelude.{◌≡◌, ◌==◌, ℕ, Some, if◌then◌else◌, OnOk, IfOk};
ghost use Rattle.unit_build.specs.Connections.{port_number};
ghost use Rattle.unit_build.specs.Found.{port_in};

use crate::port_names::PortNames;
use indexmap::IndexMap;
use ls_text::{NameId, NoMemory};
use std::alloc::Global;
use typed_ir::PortShape;

impl PortNames {
    /// The number of the first port of a name.
    pub fn find(&self, name: NameId) -> Option<usize>
        ensures { result ≡ port_in self.now name.0 }
    {
        match self.first.get(&name.0) {
            Some(number) => Some(*number),
            None => None,
        }
    }

    // The last port that is put in under a name is the one that is found.
    fn put(&mut self, name: NameId, number: usize) -> Result<(), NoMemory>
        ensures { OnOk result ((q : ℕ) → port_in self.new q ≡ (if name.0 == q then Some number else port_in self.old q)) }
    {
        self.first.insert(name.0, number)?;
        Ok(())
    }
}

/// The names of ports in header order.
pub fn names_of(alloc: Global, ports: &[PortShape]) -> Result<PortNames, NoMemory>
    ensures { IfOk result (λ names. (q : ℕ) → port_in names q ≡ port_number q 0 ports.now) }
{
    let mut names = PortNames {
        first: IndexMap::with_capacity(alloc, ports.len())?,
    };
    let mut left = ports.len();
    while left > 0 {
        left -= 1;
        let port = ports[left];
        names.put(port.name, left)?;
    }
    Ok(names)
}
