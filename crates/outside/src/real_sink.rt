// A sink over a writer.
ghost use Rattle.std.specs.Prelude.{◌≡◌, ◌<◌, ◌≤◌, false, true, length, take, None, IfOk, OnOk, OnErr, MatchResult};
ghost use Rattle.std.specs.Io.KnownBytes.{Appends, Keeps};
ghost use Rattle.outside.specs.Counts.{Counts};

use crate::sink::{Sink, WriteFailed};
use crate::tries::MOST_TRIES;
use std::io::{ErrorKind, Write};
use std::marker::Model;

/// A sink that hands the bytes on to a writer, and does not tell them. A call of the writer that
/// was interrupted is repeated, at most 1,000 times in one call of the sink; after that, and where
/// the writer takes nothing of a piece that is not empty, the call fails.
#[derive(Drop)]
pub struct RealSink<W: Write + Drop> {
    inner: W,
    flushed: bool,
    faults: u64,
}

impl<W: Write + Drop> Model for RealSink<W> {
    ghost use Rattle.outside.specs.RealSink.{WriterState};

    ghost Value = { WriterState };

    ghost view = { λ s. record {
      contents = W.contents s.inner;
      flushed = s.flushed;
      faults = s.faults;
    } };
}

impl<W: Write + Drop> RealSink<W> {
    /// A sink over a writer.
    pub fn new(inner: W) -> RealSink<W>
        ensures state { result
            ≡ record { contents = W.contents inner; flushed = false; faults = 0 } }
        ensures not_flushed { (⟦<RealSink<W> as Sink>⟧.seen result).flushed ≡ false }
        ensures faults { (⟦<RealSink<W> as Sink>⟧.seen result).faults ≡ 0 }
    {
        RealSink {
            inner,
            flushed: false,
            faults: 0,
        }
    }
}

impl<W: Write + Drop> Sink for RealSink<W> {
    ghost seen = { λ s. record { taken = None; flushed = s.flushed; faults = s.faults } };

    fn write(&mut self, piece: &[u8]) -> Result<usize, WriteFailed>
        ensures bound { IfOk result (λ n. n ≤ length piece.now) }
        ensures some { 0 < length piece.now → IfOk result (λ n. 0 < n) }
        ensures not_flushed { self.new.flushed ≡ false }
        ensures counts { Counts self.old.faults self.new.faults result }

        ensures hands_on { MatchResult result
            (λ n. Appends self.old.contents self.new.contents (take n piece.now))
            (λ _. Keeps self.old.contents self.new.contents) }
    {
        self.flushed = false;
        let count = write_some(&mut self.inner, piece);
        if count.is_err() {
            self.faults = self.faults.saturating_add(1);
        }
        count
    }

    fn flush(&mut self) -> Result<(), WriteFailed>
        ensures flushed { OnOk result (self.new.flushed ≡ true) }
        ensures not_flushed { OnErr result (self.new.flushed ≡ false) }
        ensures counts { Counts self.old.faults self.new.faults result }

        ensures hands_on { Keeps self.old.contents self.new.contents }
    {
        let flush = flush_all(&mut self.inner);
        self.flushed = flush.is_ok();
        if flush.is_err() {
            self.faults = self.faults.saturating_add(1);
        }
        flush
    }
}

// Writes the front of a piece and answers how many bytes were taken. It fails where the writer
// fails or takes nothing of a piece that is not empty.
fn write_some<W: Write>(inner: &mut W, piece: &[u8]) -> Result<usize, WriteFailed>
    ensures bound { IfOk result (λ n. n ≤ length piece.now) }
    ensures some { 0 < length piece.now → IfOk result (λ n. 0 < n) }
    ensures bytes { MatchResult result
        (λ n. Appends (W.contents inner.old) (W.contents inner.new) (take n piece.now))
        (λ _. Keeps (W.contents inner.old) (W.contents inner.new)) }
{
    for _ in 0..MOST_TRIES {
        match inner.write(piece) {
            Ok(0) if !piece.is_empty() => return Err(WriteFailed),
            Ok(count) => return Ok(count),
            Err(error) if error.kind() == ErrorKind::Interrupted => {}
            Err(_) => return Err(WriteFailed),
        }
    }
    Err(WriteFailed)
}

// Hands on all that the writer holds back.
fn flush_all<W: Write>(inner: &mut W) -> Result<(), WriteFailed>
    ensures { Keeps (W.contents inner.old) (W.contents inner.new) }
{
    for _ in 0..MOST_TRIES {
        match inner.flush() {
            Ok(()) => return Ok(()),
            Err(error) if error.kind() == ErrorKind::Interrupted => {}
            Err(_) => return Err(WriteFailed),
        }
    }
    Err(WriteFailed)
}
