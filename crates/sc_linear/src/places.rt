//! Places of the search.
ghost use Rattle.std.specs.Prelude.{◌≡◌, ◌↔◌, ℕ, IfOk, IsTrue, ◌⊎◌, ◌&&◌, ◌++◌, List, [], None, length, ◌==◌, ◌≤◌};
ghost use Rattle.std.specs.List.{list_any};
ghost use Rattle.std.specs.Cmp.{partial_equiv_from_equiv};
ghost use Rattle.std.specs.Hash as fed;
ghost use Rattle.sc_base.specs.Definitions.{Among};
ghost use Rattle.sc_linear_law.specs.LinearDefinitions.{EachPair, Place};
ghost use Rattle.sc_linear.specs.Search.{rank_of, same_place, place_writes, taken_with, taken_without};
ghost use Rattle.sc_linear.specs.PlaceEquality.{place_equiv, place_alike};

use crate::registers::same_value;
use sc_base::{Dup, OutOfMemory, Value};
use std::alloc::Global;
use std::hash::{Hash, Hasher};
use std::marker::Model;

/// A value of the key, and the requests under way that are taken already, by their numbers,
/// ascending.
#[derive(Drop)]
pub struct Taken {
    value: Option<Value>,
    taken: Vec<usize>,
}

impl Model for Taken {
    ghost use Rattle.sc_linear_law.specs.LinearDefinitions.{Place};

    ghost Value = { Place };

    ghost view = { λ a. record { value = a.value; taken = a.taken.items } };
}

impl PartialEq for Taken {
    ghost eq = { same_place };

    ghost laws = { partial_equiv_from_equiv place_equiv };

    fn eq(&self, other: &Taken) -> bool {
        same_value(&self.value, &other.value) && self.taken.as_slice() == other.taken.as_slice()
    }
}

impl Eq for Taken {
    ghost laws = { place_equiv };
}

impl Hash for Taken {
    ghost hash_input = { place_writes };

    ghost respects_eq = { place_alike };

    fn hash<H: Hasher>(&self, state: &mut H) {
        match &self.value {
            None => {}
            Some(value) => value.bytes().hash(state),
        }
        self.taken.as_slice().hash(state);
    }
}

/// Returns how many of the numbers, which ascend, are below this one.
#[tactic(auto, using(crate::proofs::RankLemmas::steps))]
fn rank(taken: &[usize], x: usize) -> usize
    ensures rank { result ≡ rank_of x taken.now }
    ensures within { result ≤ length taken.now }
{
    for i in 0..taken.len() {
        if x <= taken[i] {
            return i;
        }
    }
    taken.len()
}

/// Returns the numbers without one.
pub fn without(taken: &[usize], x: usize, alloc: Global) -> Result<Vec<usize>, OutOfMemory>
    ensures { IfOk result (λ less. less.items ≡ taken_without x taken.now) }
{
    let mut less = Vec::new(alloc);
    for y in taken {
        if *y != x {
            less.push(*y)?;
        }
    }
    Ok(less)
}

impl Taken {
    /// Returns the place at which the search starts: no value, and no request.
    pub fn start(alloc: Global) -> Taken
        ensures { result ≡ record { value = None; taken = [] } }
    {
        Taken {
            value: None,
            taken: Vec::new(alloc),
        }
    }

    /// Returns the key's value.
    pub fn value(&self) -> &Option<Value>
        ensures { result.now ≡ self.now.value }
    {
        &self.value
    }

    /// Returns whether a request is taken.
    pub fn has(&self, x: usize) -> bool
        ensures { result ≡ list_any (λ y. y == x) self.now.taken }
    {
        self.taken.iter().any(|y| *y == x)
    }

    /// Returns the place with one more request taken, which leaves this value.
    pub fn with(&self, x: usize, value: Option<Value>, alloc: Global) -> Result<Taken, OutOfMemory>
        ensures { IfOk result (λ more. more ≡ record { value = value; taken = taken_with x self.now.taken }) }
    {
        let at = rank(self.taken.as_slice(), x);
        let mut taken = Vec::with_capacity(alloc, self.taken.len())?;
        taken.extend_from_slice(&self.taken[..at])?;
        taken.push(x)?;
        taken.extend_from_slice(&self.taken[at..])?;
        Ok(Taken { value, taken })
    }

    /// Returns the place without a request, which has ended.
    pub fn without(&self, x: usize, alloc: Global) -> Result<Taken, OutOfMemory>
        ensures { IfOk result (λ less. less ≡ record { value = self.now.value; taken = taken_without x self.now.taken }) }
    {
        let taken = without(self.taken.as_slice(), x, alloc)?;
        Ok(Taken {
            value: self.value.dup(alloc)?,
            taken,
        })
    }
}
