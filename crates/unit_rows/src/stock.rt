// What designs are built with.
use crate::counting_forge::CountingForge;
use ls_text::NoMemory;
use module_registry::Registry;
use std::alloc::Global;

/// What designs are built with: the units that are held, and what makes more.
#[derive(Drop)]
pub struct Stock {
    pub registry: Registry,
    pub forge: CountingForge,
}

impl Stock {
    /// Nothing is held, and nothing was made.
    pub fn new(alloc: Global) -> Stock {
        Stock {
            registry: Registry::new(alloc),
            forge: CountingForge::new(alloc),
        }
    }

    /// The same is held; nothing was made.
    pub fn copy(&self, alloc: Global) -> Result<Stock, NoMemory> {
        let registry = self.registry.copy()?;
        Ok(Stock {
            registry,
            forge: CountingForge::new(alloc),
        })
    }
}
