// How far instances are taken as one.
use std::alloc::{AllocError, Global};

/// What of each instance is taken apart.
#[derive(Drop)]
pub struct Division {
    /// Whether its own nodes stand alone, and not as one group.
    pub apart: Vec<bool>,
    /// Whether its groups stand among those of the nearest instance above that isn't open, and not within a group of their own.
    pub open: Vec<bool>,
}

// Adds to some flags what others have, and says whether that was more.
fn join(flags: &mut [bool], more: &[bool]) -> bool {
    let mut grew = false;
    for place in 0..flags.len() {
        if let Some(flag) = more.get(place) {
            if *flag && !flags[place] {
                flags[place] = true;
                grew = true;
            }
        }
    }
    grew
}

impl Division {
    /// Nothing is taken apart of so many instances.
    pub fn new(alloc: Global, instances: usize) -> Result<Division, AllocError> {
        let apart = vec![in alloc; false; instances]?;
        let open = vec![in alloc; false; instances]?;
        Ok(Division { apart, open })
    }

    /// The nodes of these stand alone too. Whether that is more than before.
    pub fn part(&mut self, instances: &[bool]) -> bool {
        join(&mut self.apart, instances)
    }

    /// These are open too. Whether that is more than before.
    pub fn unfold(&mut self, instances: &[bool]) -> bool {
        join(&mut self.open, instances)
    }
}
