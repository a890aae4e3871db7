//! A source and a sink in memory, which fail at the calls that are listed.
ghost use Rattle.std.specs.Prelude.{◌≡◌, ℕ, ◌+◌, ◌-◌, ◌<◌, ◌≤◌, ◌⊎◌, ◌↔◌, [], length, min, Contains, IfOk, OnOk, OnErr, IsErr, Some};
ghost use Rattle.std.specs.Io.KnownBytes.{Appends};
ghost use Rattle.sc_texts.specs.edges.Causes.{HasCause};
ghost use Rattle.sc_texts.specs.edges.Bytes.{Gives, AppendsPart, IsHanded};

use crate::edges::pieces::Pieces;
use crate::edges::traits::{Failed, Sink, Source};
use sc_base::OutOfMemory;
use std::alloc::Global;
use std::marker::Model;

/// A source of given bytes. A call fails, and takes nothing, exactly where its number, counted
/// from 1, is listed.
#[derive(Drop)]
pub struct MemSource {
    bytes: Vec<u8>,
    at: usize,
    failing: Vec<u64>,
    calls: u64,
    errors: u64,
}

impl Model for MemSource {
    ghost use Rattle.std.specs.Prelude.{◌≤◌, drop, vec_len};
    ghost use Rattle.sc_texts.specs.edges.Memory.{SourceState};

    ghost Value = { SourceState };

    ghost view = { λ s.
        record {
          left = drop s.at s.bytes.items;
          failing = s.failing.items;
          calls = s.calls;
          errors = s.errors;
        } };

    ghost invariant = { λ s. s.at ≤ vec_len s.bytes };
}

impl MemSource {
    /// Returns a source of these bytes, before its first call. `failing` lists the numbers of the
    /// calls that fail.
    pub fn new(alloc: Global, bytes: &[u8], failing: &[u64]) -> Result<MemSource, OutOfMemory>
        ensures { IfOk result
            (λ s. s ≡ record { left = bytes.now; failing = failing.now; calls = 0; errors = 0 }) }
    {
        Ok(MemSource {
            bytes: Vec::from_slice(alloc, bytes)?,
            at: 0,
            failing: Vec::from_slice(alloc, failing)?,
            calls: 0,
            errors: 0,
        })
    }
}

impl Source for MemSource {
    ghost left = { λ s. Some s.left };

    ghost errors = { λ s. s.errors };

    ghost calls = { λ s. s.calls };

    fn take(&mut self, buf: &mut [u8]) -> Result<usize, Failed>
        ensures taken { IfOk result
            (λ n. Gives (Some self.old.left) (Some self.new.left) n buf.new) }
        ensures cause { HasCause self.old.errors self.new.errors result }
        ensures call { self.new.calls ≤ self.old.calls + 1 }
        ensures fails { IsErr result ↔ Contains self.old.failing self.new.calls }
        ensures calls { self.new.calls ≡ min (self.old.calls + 1) u64.MAX }
        ensures failing { self.new.failing ≡ self.old.failing }
        ensures unchanged { OnErr result (self.new.left ≡ self.old.left) }
        ensures count { OnOk result (self.new.errors ≡ self.old.errors) }
    {
        self.calls = self.calls.saturating_add(1);
        if self.failing.contains(&self.calls) {
            self.errors = self.errors.saturating_add(1);
            return Err(Failed);
        }
        let left = self.bytes.len() - self.at;
        let n = left.min(buf.len());
        buf[..n].copy_from_slice(&self.bytes[self.at..self.at + n]);
        self.at += n;
        Ok(n)
    }
}

/// A sink with room for a fixed number of bytes. A call fails, and appends nothing, exactly where
/// its number, counted from 1, is listed, or where the piece does not fit into the room that is
/// left.
#[derive(Drop)]
pub struct MemSink {
    held: Vec<u8>,
    room: usize,
    failing: Vec<u64>,
    calls: u64,
    errors: u64,
    pieces: Pieces,
}

impl Model for MemSink {
    ghost use Rattle.std.specs.Prelude.{◌+◌, ◌≤◌, vec_len, vec_capacity};
    ghost use Rattle.sc_texts.specs.edges.Memory.{SinkState};

    ghost Value = { SinkState };

    ghost view = { λ s.
        record {
          held = s.held.items;
          room = s.room;
          failing = s.failing.items;
          calls = s.calls;
          errors = s.errors;
          pieces = s.pieces.brought;
        } };

    ghost invariant = { λ s. vec_len s.held + s.room ≤ vec_capacity s.held };
}

impl MemSink {
    /// Returns a sink with room for `room` bytes, before its first call. `failing` lists the
    /// numbers of the calls that fail. Memory is allocated here and in no later call.
    pub fn new(alloc: Global, room: usize, failing: &[u64]) -> Result<MemSink, OutOfMemory>
        ensures { IfOk result
            (λ s.
            s
            ≡ record {
              held = [];
              room = room;
              failing = failing.now;
              calls = 0;
              errors = 0;
              pieces = [];
            }) }
    {
        Ok(MemSink {
            held: Vec::with_capacity(alloc, room)?,
            room,
            failing: Vec::from_slice(alloc, failing)?,
            calls: 0,
            errors: 0,
            pieces: Pieces::new(),
        })
    }

    /// Returns the bytes that the sink holds.
    pub fn held(&self) -> &[u8]
        ensures { result.now ≡ self.now.held }
    {
        &self.held
    }
}

impl Sink for MemSink {
    ghost held = { λ s. Some s.held };

    ghost errors = { λ s. s.errors };

    ghost calls = { λ s. s.calls };

    ghost pieces = { λ s. Some s.pieces };

    fn put(&mut self, piece: &[u8]) -> Result<(), Failed>
        ensures whole { OnOk result (Appends (Some self.old.held) (Some self.new.held) piece.now) }
        ensures part { OnErr result
            (AppendsPart (Some self.old.held) (Some self.new.held) piece.now) }
        ensures cause { HasCause self.old.errors self.new.errors result }
        ensures call { self.new.calls ≤ self.old.calls + 1 }
        ensures piece { IsHanded (Some self.old.pieces) (Some self.new.pieces) piece.now }
        ensures fails { IsErr result ↔
            (Contains self.old.failing self.new.calls ⊎ self.old.room < length piece.now) }
        ensures calls { self.new.calls ≡ min (self.old.calls + 1) u64.MAX }
        ensures failing { self.new.failing ≡ self.old.failing }
        ensures unchanged { OnErr result
            ((self.new.held ≡ self.old.held) × (self.new.room ≡ self.old.room)) }
        ensures room { OnOk result
            ((self.new.errors ≡ self.old.errors)
            × (self.new.room + length piece.now ≡ self.old.room)) }
    {
        self.pieces.note(piece);
        self.calls = self.calls.saturating_add(1);
        if self.failing.contains(&self.calls)
            || piece.len() > self.room
            || self.held.extend_from_slice(piece).is_err()
        {
            self.errors = self.errors.saturating_add(1);
            return Err(Failed);
        }
        self.room -= piece.len();
        Ok(())
    }
}
