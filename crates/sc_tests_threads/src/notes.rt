//! Mail that carries nothing.

use sc_actor::Parcel;
use sc_base::{Dup, OutOfMemory, Same, Sequence};
use std::alloc::Global;
use std::process::Abort;

/// A note to an actor, which counts `size` bytes.
#[derive(PartialEq, Eq, Drop)]
pub struct Note {
    pub to: u32,
    pub size: u64,
}

impl Dup for Note {
    fn dup(&self, _alloc: Global) -> Result<Note, OutOfMemory> {
        Ok(Note {
            to: self.to,
            size: self.size,
        })
    }
}

impl Same for Note {
    fn is_same(&self, other: &Note) -> bool {
        self == other
    }
}

impl Parcel for Note {
    ghost receiver = { λ note. note.to };

    ghost weighs = { λ note. note.size };

    fn to(&self) -> u32 {
        self.to
    }

    fn weight(&self) -> u64 {
        self.size
    }
}

/// Returns one note to each of these actors.
pub fn notes(rt: &impl Abort, alloc: Global, receivers: &[u32], size: u64) -> Sequence<Note> {
    let mut sent = Sequence::new(alloc);
    for to in receivers {
        sent.push(Note { to: *to, size }).expect(rt, "memory");
    }
    sent
}
