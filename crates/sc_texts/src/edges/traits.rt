//! The traits of sources and sinks.
ghost use Rattle.std.specs.Prelude.{◌≤◌, ◌+◌, List, ℕ, Option, None, length, IfOk, OnOk, OnErr};
ghost use Rattle.std.specs.Io.KnownBytes.{Appends};
ghost use Rattle.sc_texts.specs.edges.Causes.{HasCause};
ghost use Rattle.sc_texts.specs.edges.Bytes.{Gives, AppendsPart, IsHanded};

/// The error of a call of a source or a sink. It is returned only where the count of I/O errors
/// rose.
#[derive(Clone, Copy, Debug, PartialEq, Eq)]
pub struct Failed;

/// A source of bytes.
pub trait Source {
    /// The bytes that are left, where the source knows them.
    ghost left: { Self → Option (List ℕ) };

    /// The number of read errors so far. It never falls. Where it is 2^64 - 1, it counts as risen.
    ghost errors: { Self → ℕ };

    /// The number of calls so far, where the source counts them, or else 0.
    ghost calls: { Self → ℕ } = { λ _. 0 };

    /// Fills a prefix of the buffer with the next bytes, and returns the length of that prefix. 0
    /// for a buffer that is not empty means the end of the input, and is returned only there.
    fn take(&mut self, buf: &mut [u8]) -> Result<usize, Failed>
        ensures taken { IfOk result (λ n. Gives (left self.old) (left self.new) n buf.new) }
        ensures cause { HasCause (errors self.old) (errors self.new) result }
        ensures call { calls self.new ≤ calls self.old + 1 };
}

/// A sink of bytes.
pub trait Sink {
    /// The bytes that the sink holds, where the sink knows them.
    ghost held: { Self → Option (List ℕ) };

    /// The number of write errors so far. It never falls. Where it is 2^64 - 1, it counts as
    /// risen.
    ghost errors: { Self → ℕ };

    /// The number of calls so far, where the sink counts them, or else 0.
    ghost calls: { Self → ℕ } = { λ _. 0 };

    /// The pieces that the calls were given, one for each call, where the sink records them.
    ghost pieces: { Self → Option (List (List ℕ)) } = { λ _. None };

    /// Appends the whole piece, or, where it fails, a prefix of it.
    fn put(&mut self, piece: &[u8]) -> Result<(), Failed>
        ensures whole { OnOk result (Appends (held self.old) (held self.new) piece.now) }
        ensures part { OnErr result (AppendsPart (held self.old) (held self.new) piece.now) }
        ensures cause { HasCause (errors self.old) (errors self.new) result }
        ensures call { calls self.new ≤ calls self.old + 1 }
        ensures piece { IsHanded (pieces self.old) (pieces self.new) piece.now };
}
