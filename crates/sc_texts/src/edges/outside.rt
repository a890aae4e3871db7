//! Sources and sinks over the readers and writers of std. Over the real input and output contracts
//! do not know the bytes.
ghost use Rattle.std.specs.Prelude.{◌≡◌, ◌≤◌, ◌+◌, min, IfOk, OnOk, OnErr};
ghost use Rattle.std.specs.Io.KnownBytes.{Appends};
ghost use Rattle.sc_texts.specs.edges.Bytes.{Gives, AppendsPart};
ghost use Rattle.sc_texts.specs.edges.Causes.{HasCause};

use crate::edges::traits::{Failed, Sink, Source};
use std::io::{Read, Write};

/// A source over a reader, with a count of its calls and of its read errors.
#[derive(Drop)]
pub struct StdSource<R> {
    reader: R,
    calls: u64,
    errors: u64,
}

impl<R> StdSource<R> {
    /// Returns the source over a reader, before its first call. It takes no memory.
    pub fn new(reader: R) -> StdSource<R>
        ensures { result ≡ record { reader = reader; calls = 0; errors = 0 } }
    {
        StdSource {
            reader,
            calls: 0,
            errors: 0,
        }
    }
}

impl<R: Read> Source for StdSource<R> {
    ghost left = { λ s. R.remaining s.reader };

    ghost errors = { λ s. s.errors };

    ghost calls = { λ s. s.calls };

    fn take(&mut self, buf: &mut [u8]) -> Result<usize, Failed>
        ensures taken { IfOk result
            (λ n. Gives (R.remaining self.old.reader) (R.remaining self.new.reader) n buf.new) }
        ensures cause { HasCause self.old.errors self.new.errors result }
        ensures call { self.new.calls ≤ self.old.calls + 1 }
        ensures counted { self.new.calls ≡ min (self.old.calls + 1) u64.MAX }
        ensures same { OnOk result (self.new.errors ≡ self.old.errors) }
        ensures risen { OnErr result (self.new.errors ≡ min (self.old.errors + 1) u64.MAX) }
    {
        self.calls = self.calls.saturating_add(1);
        match self.reader.read(buf) {
            Ok(n) => Ok(n),
            Err(_) => {
                self.errors = self.errors.saturating_add(1);
                Err(Failed)
            }
        }
    }
}

/// A sink over a writer, with a count of its calls and of its write errors.
#[derive(Drop)]
pub struct StdSink<W> {
    writer: W,
    calls: u64,
    errors: u64,
}

impl<W> StdSink<W> {
    /// Returns the sink over a writer, before its first call. It takes no memory.
    pub fn new(writer: W) -> StdSink<W>
        ensures { result ≡ record { writer = writer; calls = 0; errors = 0 } }
    {
        StdSink {
            writer,
            calls: 0,
            errors: 0,
        }
    }
}

impl<W: Write> Sink for StdSink<W> {
    ghost held = { λ s. W.contents s.writer };

    ghost errors = { λ s. s.errors };

    ghost calls = { λ s. s.calls };

    fn put(&mut self, piece: &[u8]) -> Result<(), Failed>
        ensures whole { OnOk result
            (Appends (W.contents self.old.writer) (W.contents self.new.writer) piece.now) }
        ensures part { OnErr result
            (AppendsPart (W.contents self.old.writer) (W.contents self.new.writer) piece.now) }
        ensures cause { HasCause self.old.errors self.new.errors result }
        ensures call { self.new.calls ≤ self.old.calls + 1 }
        ensures counted { self.new.calls ≡ min (self.old.calls + 1) u64.MAX }
        ensures same { OnOk result (self.new.errors ≡ self.old.errors) }
        ensures risen { OnErr result (self.new.errors ≡ min (self.old.errors + 1) u64.MAX) }
    {
        self.calls = self.calls.saturating_add(1);
        let mut at = 0;
        while at < piece.len() {
            match self.writer.write(&piece[at..]) {
                Ok(n) if n > 0 => at += n,
                _ => {
                    self.errors = self.errors.saturating_add(1);
                    return Err(Failed);
                }
            }
        }
        Ok(())
    }
}
