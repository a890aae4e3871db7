//! The places that were seen, in the order in which they were found.
ghost use Rattle.std.specs.Prelude.{◌≡◌, ◌<◌, [], ◌∷◌, ◌++◌, length, false, OnOk, slice_index_or, None};
ghost use Rattle.sc_linear.specs.Standing.{is_seen, start_entry, AreApart};

use crate::places::Taken;
use indexmap::IndexMap;
use sc_base::OutOfMemory;
use std::alloc::Global;
use std::marker::Model;

/// Places, each once, and the number of an order that leads to it.
#[derive(Drop)]
pub struct Seen {
    places: IndexMap<Taken, usize>,
}

impl Model for Seen {
    ghost use Rattle.std.specs.Prelude.{List, ℕ};
    ghost use Rattle.sc_linear_law.specs.LinearDefinitions.{Place};
    ghost use Rattle.sc_linear.specs.Standing.{AreApart};

    ghost Value = { List (Place × ℕ) };

    ghost view = { λ a. a.places.entries };

    ghost invariant = { λ a. AreApart a.places.entries };
}

impl Seen {
    /// Returns no places.
    pub fn new(alloc: Global) -> Seen
        ensures { result ≡ [] }
    {
        Seen {
            places: IndexMap::new(alloc),
        }
    }

    /// Returns how many places there are.
    pub fn len(&self) -> usize
        ensures len { result ≡ length self.now }
        ensures apart { AreApart self.now }
    {
        self.places.len()
    }

    /// Returns the place at an index.
    pub fn place(&self, at: usize) -> &Taken
        requires { at < length self.now }
        ensures { result.now ≡ (slice_index_or self.now at start_entry).0 }
    {
        match self.places.get_index(at) {
            Some((place, _)) => place,
            None => unreachable!(),
        }
    }

    /// Returns the number of the order that leads to the place at an index.
    pub fn path(&self, at: usize) -> usize
        requires { at < length self.now }
        ensures { result ≡ (slice_index_or self.now at start_entry).1 }
    {
        match self.places.get_index(at) {
            Some((_, path)) => *path,
            None => unreachable!(),
        }
    }

    /// Returns whether the place is there.
    pub fn has(&self, place: &Taken) -> bool
        ensures { result ≡ is_seen place.now self.now }
    {
        self.places.contains_key(place)
    }

    /// Appends a place that is not there, with the number of an order that leads to it.
    pub fn push(&mut self, place: Taken, path: usize) -> Result<(), OutOfMemory>
        requires { is_seen place self.old ≡ false }
        ensures { OnOk result (self.new ≡ self.old ++ (place, path) ∷ []) }
    {
        self.places.insert(place, path)?;
        Ok(())
    }
}
