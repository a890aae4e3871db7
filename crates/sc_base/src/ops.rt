//! The operations that a client asks of the store, and their replies.
ghost use Rattle.std.specs.Prelude.{◌≡◌};
ghost use Rattle.sc_base.specs.Operation.{key_of};

use crate::dups::{Dup, OutOfMemory};
use crate::ordered::Ordered;
use crate::sames::Same;
use crate::texts::{Key, Value};
use std::alloc::Global;

/// An operation on one key. Each one answers the key's old value, or none. `Get` changes nothing,
/// `Put` sets the key, `Del` removes it, `Add` sets it where it had no value, and `Cas` sets it
/// where its value was `expect`.
#[derive(Clone, PartialEq, Eq, Drop)]
pub enum Op {
    Get {
        key: Key,
    },
    Put {
        key: Key,
        value: Value,
    },
    Del {
        key: Key,
    },
    Add {
        key: Key,
        value: Value,
    },
    Cas {
        key: Key,
        expect: Value,
        value: Value,
    },
}

impl Op {
    /// Returns the key that the operation is on.
    pub fn key(&self) -> &Key
        ensures { result.now ≡ key_of self.now }
    {
        match self {
            Op::Get { key }
            | Op::Put { key, .. }
            | Op::Del { key }
            | Op::Add { key, .. }
            | Op::Cas { key, .. } => key,
        }
    }
}

/// The reply to an operation: the value that the key had before, or none.
#[derive(Clone, PartialEq, Eq, Drop)]
pub struct Reply {
    pub old: Option<Value>,
}

impl Dup for Op {
    fn dup(&self, _alloc: Global) -> Result<Op, OutOfMemory> {
        Ok(self.clone()?)
    }
}

impl Dup for Reply {
    fn dup(&self, _alloc: Global) -> Result<Reply, OutOfMemory> {
        Ok(self.clone()?)
    }
}

/// Keys and their values, in the order of the keys.
pub type Pairs = Ordered<Key, Value>;

/// The number of a client's last request, and the reply to it.
#[derive(Clone, PartialEq, Eq, Drop)]
pub struct Noted {
    pub seq: u32,
    pub reply: Reply,
}

/// The last request of each client, in the order of the clients.
pub type SeenList = Ordered<u16, Noted>;

impl Dup for Noted {
    fn dup(&self, _alloc: Global) -> Result<Noted, OutOfMemory> {
        Ok(self.clone()?)
    }
}

impl Same for Op {
    fn is_same(&self, other: &Op) -> bool {
        self == other
    }
}

impl Same for Reply {
    fn is_same(&self, other: &Reply) -> bool {
        self == other
    }
}

impl Same for Noted {
    fn is_same(&self, other: &Noted) -> bool {
        self == other
    }
}
