ghost use Rattle.std.specs.Prelude.{◌≡◌, ℕ, ◌^◌, ◌<◌, Some, IfOk, OnOk, length, if◌then◌else◌, ◌==◌};
ghost use Rattle.std.specs.Option.{option_and_then};
ghost use Rattle.qm_normal.specs.PlaceSteps.{IsPlacesOf, place_in};

use qm_io::{List, Memory};
use qm_parse::{AstTerm, Named};
use std::alloc::Global;

/// The places of variables in game order, by the numbers of their names.
#[derive(Drop)]
pub(crate) struct Places {
    places: List<Option<u32>>,
}

impl Places {
    /// The places of the names in a list.
    pub(crate) fn of(alloc: Global, order: &[Named]) -> Result<Places, Memory>
        requires { length order.now < 2 ^ 32 }
        ensures { IfOk result (IsPlacesOf order.now) }
    {
        let mut places = Places {
            places: List::new(alloc),
        };
        for (place, named) in order.iter().enumerate() {
            places.put(named.name, place as u32)?;
        }
        Ok(places)
    }

    /// The place of a name; a name that isn't in the list has none.
    fn place(&self, name: u32) -> Option<u32>
        ensures { result ≡ place_in self.now name }
    {
        let at = name as usize;
        let places = self.places.as_slice();
        if at < places.len() { places[at] } else { None }
    }

    /// The place of a term's variable; a constant has none.
    pub(crate) fn place_of(&self, term: &AstTerm) -> Option<u32>
        ensures { result ≡ option_and_then (place_in self.now) term.now.name }
    {
        match term.name {
            None => None,
            Some(name) => self.place(name),
        }
    }

    /// Gives a name its place.
    fn put(&mut self, name: u32, place: u32) -> Result<(), Memory>
        ensures { OnOk result ((other : ℕ) → place_in self.new other ≡ if name == other then Some place else place_in self.old other) }
    {
        self.reach(name)?;
        self.places.set(name as usize, Some(place));
        Ok(())
    }

    /// Makes the table long enough for a name.
    fn reach(&mut self, name: u32) -> Result<(), Memory>
        ensures reached { OnOk result (name < length self.new.places) }
        ensures same { OnOk result ((other : ℕ) → place_in self.new other ≡ place_in self.old other) }
    {
        while self.places.len() <= name as usize {
            self.places.push(None)?;
        }
        Ok(())
    }
}
