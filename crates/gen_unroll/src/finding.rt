// First places, found and noted.
ghost use Rattle.std.specs.Prelude.{◌≡◌, ◌==◌, ℕ, None, OnOk};
ghost use Rattle.gen_unroll.specs.Places.{first_of};
ghost use Rattle.gen_unroll.specs.PlaceViews.{place_in};

use crate::first_places::FirstPlaces;
use indexmap::IndexMap;
use ls_text::NoMemory;
use std::alloc::Global;

impl FirstPlaces {
    /// No place. It takes no memory.
    pub fn new(alloc: Global) -> FirstPlaces
        ensures { (q : ℕ) → place_in result q ≡ None }
    {
        FirstPlaces {
            places: IndexMap::new(alloc),
        }
    }

    /// The first place of a key, if it has one.
    pub fn find(&self, key: u64) -> Option<u32>
        ensures { result ≡ place_in self.now key }
    {
        match self.places.get(&key) {
            Some(place) => Some(*place),
            None => None,
        }
    }

    /// A place of a key, where it has none yet.
    pub fn note(&mut self, key: u64, place: u32) -> Result<(), NoMemory>
        ensures { OnOk result ((q : ℕ) → place_in self.new q ≡ first_of (place_in self.old q) (key == q) place) }
    {
        match self.find(key) {
            Some(_) => Ok(()),
            None => {
                self.places.insert(key, place)?;
                Ok(())
            }
        }
    }
}
