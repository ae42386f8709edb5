// A sink in memory.
ghost use Rattle.std.specs.Prelude.{◌≡◌, ◌↔◌, ◌<◌, ◌≤◌, ◌++◌, [], false, true, length, take, Some, Ok, Err, IsTrue, IsErr, IfOk, OnOk, OnErr, MatchResult};
ghost use Rattle.outside.specs.Counts.{Counts, next_count};
ghost use Rattle.outside.specs.MemSink.{count_taken};
ghost use Rattle.outside.specs.Sink.{Takes};

use crate::sink::{Sink, WriteFailed};
use answers::Memory;
use std::alloc::Global;
use std::marker::Model;

/// A sink that keeps the bytes in memory and tells them. One write takes at most `most` bytes, and
/// all writes together at most `limit`.
#[derive(Drop)]
pub struct MemSink {
    bytes: Vec<u8>,
    most: usize,
    limit: usize,
    flush_fails: bool,
    flushed: bool,
    faults: u64,
}

impl Model for MemSink {
    ghost use Rattle.std.specs.Prelude.{◌<◌, ◌≤◌, vec_len, vec_capacity};
    ghost use Rattle.outside.specs.MemSink.{SinkState};

    ghost Value = { SinkState };

    ghost view = { λ s. record {
      taken = s.bytes.items;
      most = s.most;
      limit = s.limit;
      flush_fails = s.flush_fails;
      flushed = s.flushed;
      faults = s.faults;
    } };

    ghost invariant = { λ s. (0 < s.most) × (s.limit ≤ vec_capacity s.bytes)
        × (vec_len s.bytes ≤ s.limit) };
}

impl MemSink {
    /// An empty sink with room for `limit` bytes, so that no write takes memory.
    ///
    /// # Errors
    ///
    /// Memory ran out.
    pub fn new(
        alloc: Global,
        most: usize,
        limit: usize,
        flush_fails: bool,
    ) -> Result<MemSink, Memory>
        requires { 0 < most }
        ensures state { IfOk result
            (λ s. s ≡ record {
              taken = [];
              most = most;
              limit = limit;
              flush_fails = flush_fails;
              flushed = false;
              faults = 0;
            }) }
        ensures taken { IfOk result (λ s. (⟦<MemSink as Sink>⟧.seen s).taken ≡ Some []) }
        ensures not_flushed { IfOk result (λ s. (⟦<MemSink as Sink>⟧.seen s).flushed ≡ false) }
        ensures faults { IfOk result (λ s. (⟦<MemSink as Sink>⟧.seen s).faults ≡ 0) }
    {
        let bytes = Vec::with_capacity(alloc, limit)?;
        Ok(MemSink {
            bytes,
            most,
            limit,
            flush_fails,
            flushed: false,
            faults: 0,
        })
    }

    /// The bytes taken so far.
    pub fn taken(&self) -> &[u8]
        ensures { Some result.now ≡ (⟦<MemSink as Sink>⟧.seen self.now).taken }
    {
        self.bytes.as_slice()
    }
}

impl Sink for MemSink {
    ghost seen = { λ s. record { taken = Some s.taken; flushed = s.flushed; faults = s.faults } };

    /// Fails exactly where the piece is not empty and `limit` bytes are taken already.
    fn write(&mut self, piece: &[u8]) -> Result<usize, WriteFailed>
        ensures bound { IfOk result (λ n. n ≤ length piece.now) }
        ensures some { 0 < length piece.now → IfOk result (λ n. 0 < n) }
        ensures bytes { MatchResult result
            (λ n. Takes (Some self.old.taken) (Some self.new.taken) (take n piece.now))
            (λ _. Some self.new.taken ≡ Some self.old.taken) }
        ensures not_flushed { self.new.flushed ≡ false }
        ensures counts { Counts self.old.faults self.new.faults result }

        ensures full { IsErr result
            ↔ ((0 < length piece.now) × (self.old.limit ≤ length self.old.taken)) }
        ensures count { IfOk result (λ n. n ≡ count_taken self.old piece.now) }
        ensures takes { IfOk result
            (λ n. self.new ≡ record self.old {
              taken = self.old.taken ++ take n piece.now;
              flushed = false;
            }) }
        ensures refuses { OnErr result
            (self.new ≡ record self.old { flushed = false; faults = next_count self.old.faults }) }
    {
        self.flushed = false;
        let room = self.most.min(self.limit - self.bytes.len());
        if room == 0 && !piece.is_empty() {
            self.faults = self.faults.saturating_add(1);
            return Err(WriteFailed);
        }
        let count = piece.len().min(room);
        match self.bytes.extend_from_slice(&piece[..count]) {
            Ok(()) => Ok(count),
            Err(_) => {
                self.faults = self.faults.saturating_add(1);
                Err(WriteFailed)
            }
        }
    }

    /// Fails exactly where `flush_fails` is set.
    fn flush(&mut self) -> Result<(), WriteFailed>
        ensures bytes { Some self.new.taken ≡ Some self.old.taken }
        ensures flushed { OnOk result (self.new.flushed ≡ true) }
        ensures not_flushed { OnErr result (self.new.flushed ≡ false) }
        ensures counts { Counts self.old.faults self.new.faults result }

        ensures fails { IsErr result ↔ IsTrue self.old.flush_fails }
        ensures flushes { OnOk result (self.new ≡ record self.old { flushed = true }) }
        ensures refuses { OnErr result
            (self.new ≡ record self.old { flushed = false; faults = next_count self.old.faults }) }
    {
        self.flushed = !self.flush_fails;
        if self.flush_fails {
            self.faults = self.faults.saturating_add(1);
            return Err(WriteFailed);
        }
        Ok(())
    }
}
