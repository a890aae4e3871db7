//! The last request of each client by number, and its reply.
ghost use Rattle.std.specs.Prelude.{◌≡◌, ℕ, IfOk, OnOk, OnErr, take};
ghost use Rattle.std.specs.Option.{option_map, option_copied};
ghost use Rattle.std.specs.FinMap as map;
ghost use Rattle.sc_words.specs.ideal.Clients.{is_later, joined_with, seen_of, with_later};

use sc_base::{Dup, Noted, OutOfMemory, Reply, SeenList};
use sc_words::Seen;
use std::alloc::Global;
use std::collections::BTreeMap;
use std::marker::Model;

/// A table from clients to the numbers of their last requests and the replies. Contracts see the
/// finite map.
#[derive(Drop)]
pub struct ClientTable {
    noted: BTreeMap<u16, Noted>,
    alloc: Global,
}

impl Model for ClientTable {
    ghost use Rattle.std.specs.FinMap as map;
    ghost use Rattle.std.specs.Coded.{codes};
    ghost use Rattle.std.specs.Coded.{coded_ℕ};
    ghost use Rattle.sc_words.specs.ideal.Clients.{ClientTable};

    ghost Value = { ClientTable };

    ghost coded = { map.code coded_ℕ (Prim.hlevel codes) };

    ghost view = { λ t. map.from_entries t.noted.entries };
}

impl ClientTable {
    /// Returns the empty table, which takes no memory yet.
    pub fn new(alloc: Global) -> Self
        ensures { result ≡ map.empty }
    {
        ClientTable {
            noted: BTreeMap::new(alloc),
            alloc,
        }
    }

    /// Returns how a number compares with that of the client's last request: `New` where there is
    /// none or a lower one, `Again` where it is equal, `Stale` where there is a greater one.
    /// Allocates nothing.
    pub fn seen(&self, client: u16, seq: u32) -> Seen
        ensures { result ≡ seen_of (map.get self.now client) seq }
    {
        match self.find(client) {
            None => Seen::New,
            Some(noted) => {
                if noted.seq < seq {
                    Seen::New
                } else if noted.seq == seq {
                    Seen::Again
                } else {
                    Seen::Stale { last: noted.seq }
                }
            }
        }
    }

    /// Returns the reply to the client's last request, or `None` exactly where the client is
    /// absent.
    pub fn reply(&self, client: u16) -> Option<&Reply>
        ensures { option_copied result
            ≡ option_map (λ noted. noted.reply) (map.get self.now client) }
    {
        match self.find(client) {
            None => None,
            Some(noted) => Some(&noted.reply),
        }
    }

    /// Records a new request and its reply. The caller has asked `seen` whether it is new. After
    /// `Err(OutOfMemory)` the table is unchanged, and the reply is dropped.
    pub fn note(&mut self, client: u16, seq: u32, reply: Reply) -> Result<(), OutOfMemory>
        requires { seen_of (map.get self.old client) seq ≡ Seen.New }
        ensures ok { OnOk result
            (self.new ≡ map.insert self.old client (record { seq = seq; reply = reply })) }
        ensures err { OnErr result (self.new ≡ self.old) }
    {
        self.set(client, Noted { seq, reply })
    }

    /// Adds entries of another table: for each client the one with the greater number stays, and
    /// on equal numbers this table's. After `Err(OutOfMemory)` a prefix of the entries was added.
    pub fn join(&mut self, other: &SeenList) -> Result<(), OutOfMemory>
        ensures ok { OnOk result (self.new ≡ joined_with self.old other.now) }
        ensures err { OnErr result
            ((n : ℕ) × (self.new ≡ joined_with self.old (take n other.now))) }
    {
        for entry in other.as_slice() {
            self.join_one(entry.0, &entry.1)?;
        }
        Ok(())
    }

    /// Returns the entries, in the order of the clients.
    pub fn list(&self) -> Result<SeenList, OutOfMemory>
        ensures { IfOk result (λ list. list ≡ map.entries self.now) }
    {
        let mut list = SeenList::new(self.alloc);
        for (client, noted) in self.noted.iter() {
            list.push(*client, noted.dup(self.alloc)?)?;
        }
        Ok(list)
    }

    fn find(&self, client: u16) -> Option<&Noted>
        ensures { option_copied result ≡ map.get self.now client }
    {
        self.noted.get(&client)
    }

    fn set(&mut self, client: u16, noted: Noted) -> Result<(), OutOfMemory>
        ensures ok { OnOk result (self.new ≡ map.insert self.old client noted) }
        ensures err { OnErr result (self.new ≡ self.old) }
    {
        let _old = self.noted.insert(client, noted)?;
        Ok(())
    }

    fn join_one(&mut self, client: u16, noted: &Noted) -> Result<(), OutOfMemory>
        ensures ok { OnOk result (self.new ≡ with_later self.old client noted.now) }
        ensures err { OnErr result (self.new ≡ self.old) }
    {
        if self.is_later(client, noted.seq) {
            self.set(client, noted.dup(self.alloc)?)?;
        }
        Ok(())
    }

    fn is_later(&self, client: u16, seq: u32) -> bool
        ensures { result ≡ is_later (map.get self.now client) seq }
    {
        match self.find(client) {
            None => true,
            Some(noted) => noted.seq < seq,
        }
    }
}
