//! The members of the open slots.
ghost use Rattle.std.specs.Prelude.{◌≡◌, ◌<◌, ◌∷◌, ◌++◌, [], length, replicate, IfOk, OnOk, slice_get, slice_index_or};
ghost use Rattle.std.specs.Option.{option_copied};
ghost use Rattle.sc_node_table.specs.Slots.{slots_ahead, rest_of};
ghost use Rattle.sc_node_table.specs.Replica.{first_set};
ghost use Rattle.sc_node_table.specs.Election.{is_in_some};

use sc_base::{Members, OutOfMemory, Sequence};
use sc_node_table::OPEN_SLOTS;
use sc_words::MemberSets;
use std::alloc::Global;
use std::marker::Model;

/// The member sets of the open slots, from the next slot on.
#[derive(Drop)]
pub struct Sets {
    sets: Vec<Members>,
}

impl Model for Sets {
    ghost use Rattle.std.specs.Prelude.{List, ℕ, length, ◌≡◌};
    ghost use Rattle.sc_node_table.specs.Slots.{slots_ahead};

    ghost Value = { List (List ℕ) };

    ghost view = { λ s. s.sets.items };

    ghost invariant = { λ s. length s.sets.items ≡ slots_ahead };
}

impl Sets {
    /// Returns this set for each open slot.
    pub fn born(alloc: Global, members: &Members) -> Result<Sets, OutOfMemory>
        ensures { IfOk result (λ sets. sets ≡ replicate slots_ahead members.now) }
    {
        let mut sets = Vec::new(alloc);
        for _slot in 0..OPEN_SLOTS {
            sets.push(*members)?;
        }
        Ok(Sets { sets })
    }

    /// Returns these sets, one for each open slot.
    pub fn of(alloc: Global, sets: &MemberSets) -> Result<Sets, OutOfMemory>
        requires { length sets.now ≡ slots_ahead }
        ensures { IfOk result (λ made. made ≡ sets.now) }
    {
        Ok(Sets {
            sets: copied(alloc, sets.as_slice())?,
        })
    }

    /// Returns the sets as a mail carries them.
    pub fn list(&self, alloc: Global) -> Result<MemberSets, OutOfMemory>
        ensures { IfOk result (λ list. list ≡ self.now) }
    {
        Ok(Sequence::from_vec(copied(alloc, self.sets.as_slice())?))
    }

    /// Returns the number of open slots.
    pub fn len(&self) -> usize
        ensures four { result ≡ slots_ahead }
        ensures all { result ≡ length self.now }
    {
        self.sets.len()
    }

    /// Returns the set of an open slot, counted from the next one.
    pub fn at(&self, i: usize) -> &Members
        requires { i < slots_ahead }
        ensures { result.now ≡ slice_index_or self.now i [] }
    {
        &self.sets[i]
    }

    /// Returns the set of the slot that is this far behind the next one, if it is open.
    pub fn get(&self, i: usize) -> Option<&Members>
        ensures { option_copied result ≡ slice_get self.now i }
    {
        self.sets.as_slice().get(i)
    }

    /// Returns the set of the next slot.
    pub fn first(&self) -> &Members
        ensures { result.now ≡ first_set self.now }
    {
        &self.sets[0]
    }

    /// Returns whether a node is in one of the sets.
    pub fn has(&self, node: u16) -> bool
        ensures { result ≡ is_in_some self.now node }
    {
        self.sets.as_slice().iter().any(|set| set.has(node))
    }

    /// Drops the first set, and appends the new one.
    pub fn shift(&mut self, last: Members) -> Result<(), OutOfMemory>
        ensures { OnOk result (self.new ≡ rest_of self.old ++ last ∷ []) }
    {
        self.sets.push(last)?;
        self.sets.remove(0);
        Ok(())
    }
}

/// Returns a copy of the sets.
fn copied(alloc: Global, sets: &[Members]) -> Result<Vec<Members>, OutOfMemory>
    ensures { IfOk result (λ copy. copy.items ≡ sets.now) }
{
    let mut copy = Vec::new(alloc);
    for set in sets {
        copy.push(*set)?;
    }
    Ok(copy)
}
