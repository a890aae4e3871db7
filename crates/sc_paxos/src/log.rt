//! The log.
ghost use Rattle.std.specs.Prelude.{◌≡◌, ◌-◌, ◌<◌, ◌≤◌, ◌^◌, ◌⊎◌, IfOk, IsOk, OnErr, drop, slice_get};
ghost use Rattle.std.specs.Option.{option_copied};
ghost use Rattle.sc_words.specs.paxos.Logs.{next_of, empty_log, learnt, installed, entry_at, log_cut};

use sc_base::OutOfMemory;
use sc_words::Learnt;
use std::alloc::Global;
use std::collections::VecDeque;
use std::marker::Model;

/// The entries of a group's log that a node has executed and not dropped. Contracts see the slot
/// after which they start, and the entries.
#[derive(Drop)]
pub struct Glog<V> {
    base: u32,
    entries: VecDeque<V>,
}

impl<V> Model for Glog<V> {
    ghost use Rattle.std.specs.Prelude.{◌+◌, ◌-◌, ◌<◌, ◌^◌, length};
    ghost use Rattle.sc_words.specs.paxos.Logs.{LogState};

    ghost Value = { LogState V };

    ghost view = { λ g. record { base = g.base; entries = g.entries.items } };

    ghost invariant = { λ g. g.base + length g.entries.items < 2 ^ 32 - 1 };
}

impl<V> Glog<V> {
    /// Returns the log with no entry, whose first slot is 1.
    pub fn born(alloc: Global) -> Glog<V>
        ensures { result ≡ empty_log }
    {
        Glog {
            base: 0,
            entries: VecDeque::new(alloc),
        }
    }

    /// Returns the slot after the last executed one: 1 at first, and at most 2^32 - 1.
    pub fn next(&self) -> u32
        ensures same { result ≡ next_of self.now }
        ensures bound { next_of self.now < 2 ^ 32 }
    {
        self.base + self.entries.len() as u32 + 1
    }

    /// Returns the entry of a slot, if the log holds it.
    pub fn entry(&self, slot: u32) -> Option<&V>
        ensures { option_copied result ≡ entry_at slot self.now }
    {
        if slot <= self.base {
            return None;
        }
        held(&self.entries, (slot - self.base - 1) as usize)
    }
}

impl<V: Drop> Glog<V> {
    /// Appends a chosen value as the entry of its slot, where that is the next slot. Drops any
    /// other value; the log is then unchanged and nothing is allocated. The slot is below 2^32 -
    /// 1. After `Err(OutOfMemory)` the log is unchanged.
    pub fn learn(&mut self, slot: u32, value: V) -> Result<Learnt, OutOfMemory>
        requires { slot < 2 ^ 32 - 1 }
        ensures ok { IfOk result (λ answer. learnt slot value self.old ≡ (answer, self.new)) }
        ensures dropped { (slot < next_of self.old) ⊎ (next_of self.old < slot) → IsOk result }
        ensures err { OnErr result (self.new ≡ self.old) }
    {
        let next = self.next();
        if slot < next {
            return Ok(Learnt::Known);
        }
        if slot > next {
            return Ok(Learnt::Ahead { next });
        }
        self.entries.push_back(value)?;
        Ok(Learnt::Learnt)
    }

    /// Starts the log after a slot, which is at least the next one and below 2^32 - 1. The log
    /// then holds no entry.
    pub fn install(&mut self, slot: u32)
        requires least { next_of self.old ≤ slot }
        requires most { slot < 2 ^ 32 - 1 }
        ensures { self.new ≡ installed slot }
    {
        self.entries.clear();
        self.base = slot;
    }

    /// Drops the entries at slots not above `upto`, which is below the next slot. Allocates
    /// nothing.
    pub fn cut(&mut self, upto: u32)
        requires { upto < next_of self.old }
        ensures { self.new ≡ log_cut upto self.old }
    {
        if self.base < upto {
            drop_front(&mut self.entries, (upto - self.base) as usize);
            self.base = upto;
        }
    }
}

/// Returns the element at an index, if there is one.
fn held<V>(entries: &VecDeque<V>, at: usize) -> Option<&V>
    ensures { option_copied result ≡ slice_get entries.now.items at }
{
    entries.get(at)
}

/// Drops the first `count` elements.
fn drop_front<V: Drop>(entries: &mut VecDeque<V>, count: usize)
    ensures { entries.new.items ≡ drop count entries.old.items }
{
    for _gone in 0..count {
        let _ = entries.pop_front();
    }
}
