//! A map from keys to values, to which operations are applied.
ghost use Rattle.std.specs.Prelude.{◌≡◌, ℕ, IfOk, OnOk, OnErr, take, is_some};
ghost use Rattle.std.specs.List.{list_any};
ghost use Rattle.std.specs.Option.{option_copied};
ghost use Rattle.std.specs.FinMap as map;
ghost use Rattle.sc_base.specs.declared.ops.Op.TheVariants.{Add, Cas};
ghost use Rattle.sc_words.specs.ideal.IdealStore.{after, reply_of, part_of, was, with_pairs};

use sc_base::{Dup, Key, Op, OutOfMemory, Pairs, Reply, RingArc, Value, dup_found};
use std::alloc::Global;
use std::collections::BTreeMap;
use std::marker::Model;

/// A map from keys to values. Contracts see the finite map.
#[derive(Drop)]
pub struct Store {
    pairs: BTreeMap<Key, Value>,
    alloc: Global,
}

impl Model for Store {
    ghost use Rattle.std.specs.FinMap as map;
    ghost use Rattle.std.specs.Coded.{coded_ℕ, coded_list};
    ghost use Rattle.sc_words.specs.ideal.IdealStore.{Contents};

    ghost Value = { Contents };

    ghost coded = { map.code (coded_list coded_ℕ) (coded_list coded_ℕ) };

    ghost view = { λ s. map.from_entries s.pairs.entries };
}

impl Store {
    /// Returns the empty map, which takes no memory yet.
    pub fn new(alloc: Global) -> Self
        ensures { result ≡ map.empty }
    {
        Store {
            pairs: BTreeMap::new(alloc),
            alloc,
        }
    }

    /// Applies one operation as the ideal store does, and returns the key's old value. After
    /// `Err(OutOfMemory)` the map is unchanged.
    pub fn apply(&mut self, op: &Op) -> Result<Reply, OutOfMemory>
        ensures reply { IfOk result (λ reply. reply ≡ reply_of op.now self.old) }
        ensures ok { OnOk result (self.new ≡ after op.now self.old) }
        ensures err { OnErr result (self.new ≡ self.old) }
    {
        match op {
            Op::Get { key } => self.get(key),
            Op::Put { key, value } => self.put(key, value),
            Op::Del { key } => Ok(self.del(key)),
            Op::Add { key, value } => self.add(key, value),
            Op::Cas { key, expect, value } => self.cas(key, expect, value),
        }
    }

    /// Returns all pairs, in the order of the keys.
    pub fn list(&self) -> Result<Pairs, OutOfMemory>
        ensures { IfOk result (λ pairs. pairs ≡ map.entries self.now) }
    {
        let mut pairs = Pairs::new(self.alloc);
        for (key, value) in self.pairs.iter() {
            pairs.push(key.dup(self.alloc)?, value.dup(self.alloc)?)?;
        }
        Ok(pairs)
    }

    /// Returns the pairs whose positions the arc holds, in the order of the keys.
    pub fn part(&self, arc: &RingArc) -> Result<Pairs, OutOfMemory>
        ensures { IfOk result (λ pairs. pairs ≡ map.entries (part_of arc.now self.now)) }
    {
        let mut pairs = Pairs::new(self.alloc);
        for (key, value) in self.pairs.iter() {
            if arc.holds(key.pos()) {
                pairs.push(key.dup(self.alloc)?, value.dup(self.alloc)?)?;
            }
        }
        Ok(pairs)
    }

    /// Removes every pair whose position the arc does not hold. Allocates nothing.
    pub fn keep(&mut self, arc: &RingArc)
        ensures { self.new ≡ part_of arc.now self.old }
    {
        self.pairs.retain(|key, _value| arc.holds(key.pos()));
    }

    /// Adds pairs. A key that is there already gets the new value; the plans of a group add no
    /// such key. After `Err(OutOfMemory)` a prefix of the pairs was added.
    pub fn join(&mut self, more: &Pairs) -> Result<(), OutOfMemory>
        ensures ok { OnOk result (self.new ≡ with_pairs self.old more.now) }
        ensures err { OnErr result ((n : ℕ) × (self.new ≡ with_pairs self.old (take n more.now))) }
    {
        for pair in more.as_slice() {
            self.put(&pair.0, &pair.1)?;
        }
        Ok(())
    }

    /// Returns whether one of these keys is there.
    pub fn has_any(&self, pairs: &Pairs) -> bool
        ensures { result ≡ list_any (λ pair. is_some (map.get self.now pair.0)) pairs.now }
    {
        pairs.as_slice().iter().any(|pair| self.has(&pair.0))
    }

    fn find(&self, key: &Key) -> Option<&Value>
        ensures { option_copied result ≡ map.get self.now key.now }
    {
        self.pairs.get(key)
    }

    fn has(&self, key: &Key) -> bool
        ensures { result ≡ is_some (map.get self.now key.now) }
    {
        self.find(key).is_some()
    }

    fn was(&self, key: &Key, expect: &Value) -> bool
        ensures { result ≡ was expect.now (map.get self.now key.now) }
    {
        match self.find(key) {
            None => false,
            Some(old) => old == expect,
        }
    }

    fn get(&self, key: &Key) -> Result<Reply, OutOfMemory>
        ensures { IfOk result (λ reply. reply ≡ record { old = map.get self.now key.now }) }
    {
        let old = dup_found(self.find(key), self.alloc)?;
        Ok(Reply { old })
    }

    fn put(&mut self, key: &Key, value: &Value) -> Result<Reply, OutOfMemory>
        ensures reply { IfOk result (λ reply. reply ≡ record { old = map.get self.old key.now }) }
        ensures ok { OnOk result (self.new ≡ map.insert self.old key.now value.now) }
        ensures err { OnErr result (self.new ≡ self.old) }
    {
        let key = key.dup(self.alloc)?;
        let value = value.dup(self.alloc)?;
        let old = self.pairs.insert(key, value)?;
        Ok(Reply { old })
    }

    fn del(&mut self, key: &Key) -> Reply
        ensures reply { result ≡ record { old = map.get self.old key.now } }
        ensures after { self.new ≡ map.remove self.old key.now }
    {
        Reply {
            old: self.pairs.remove(key),
        }
    }

    fn add(&mut self, key: &Key, value: &Value) -> Result<Reply, OutOfMemory>
        ensures reply { IfOk result (λ reply. reply ≡ record { old = map.get self.old key.now }) }
        ensures ok { OnOk result (self.new ≡ after (Add key.now value.now) self.old) }
        ensures err { OnErr result (self.new ≡ self.old) }
    {
        if self.has(key) {
            self.get(key)
        } else {
            self.put(key, value)
        }
    }

    fn cas(&mut self, key: &Key, expect: &Value, value: &Value) -> Result<Reply, OutOfMemory>
        ensures reply { IfOk result (λ reply. reply ≡ record { old = map.get self.old key.now }) }
        ensures ok { OnOk result (self.new ≡ after (Cas key.now expect.now value.now) self.old) }
        ensures err { OnErr result (self.new ≡ self.old) }
    {
        if self.was(key, expect) {
            self.put(key, value)
        } else {
            self.get(key)
        }
    }
}
