// How many rows are as they have to be.

/// How many rows agree without workers, how many agree beside two, and how many of those whose lines depend on the schedule end right beside two.
#[derive(Clone, Copy)]
pub struct Counts {
    pub alone: u32,
    pub beside: u32,
    pub unlike: u32,
}

impl Counts {
    /// No row yet.
    pub fn none() -> Counts {
        Counts {
            alone: 0,
            beside: 0,
            unlike: 0,
        }
    }

    /// Counts a row without workers, where it agrees.
    pub fn count_alone(&mut self, agrees: bool) {
        self.alone = self.alone.saturating_add(u32::from(agrees));
    }

    /// Counts a row beside two, where it is as it has to be, among those of its kind.
    pub fn count_beside(&mut self, agrees: bool, are_the_same: bool) {
        let count = if are_the_same {
            &mut self.beside
        } else {
            &mut self.unlike
        };
        *count = count.saturating_add(u32::from(agrees));
    }
}
