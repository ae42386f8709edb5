// What takes bytes.
ghost use Rattle.std.specs.Prelude.{◌≡◌, ◌<◌, ◌≤◌, true, false, length, take, IfOk, OnOk, OnErr, MatchResult};
ghost use Rattle.outside.specs.Counts.{Counts};
ghost use Rattle.outside.specs.Sink.{SinkSeen, Takes};

/// A sink could not take bytes, or could not be flushed.
#[derive(Clone, Copy, Debug, PartialEq, Eq)]
pub struct WriteFailed;

/// What takes bytes.
pub trait Sink {
    /// What can be seen of it: the bytes taken, where they are known, whether it is flushed, and
    /// the count of failed calls.
    ghost seen: { Self → SinkSeen };

    /// Takes bytes from the front of a piece, and answers how many: at least one where the piece is
    /// not empty. `WriteFailed` counts one more in `faults`, and then nothing is taken.
    fn write(&mut self, piece: &[u8]) -> Result<usize, WriteFailed>
        ensures bound { IfOk result (λ n. n ≤ length piece.now) }
        ensures some { 0 < length piece.now → IfOk result (λ n. 0 < n) }
        ensures bytes { MatchResult result
            (λ n. Takes (seen self.old).taken (seen self.new).taken (take n piece.now))
            (λ _. (seen self.new).taken ≡ (seen self.old).taken) }
        ensures not_flushed { (seen self.new).flushed ≡ false }
        ensures counts { Counts (seen self.old).faults (seen self.new).faults result };

    /// Hands on all that was taken. `WriteFailed` counts one more in `faults`.
    fn flush(&mut self) -> Result<(), WriteFailed>
        ensures bytes { (seen self.new).taken ≡ (seen self.old).taken }
        ensures flushed { OnOk result ((seen self.new).flushed ≡ true) }
        ensures not_flushed { OnErr result ((seen self.new).flushed ≡ false) }
        ensures counts { Counts (seen self.old).faults (seen self.new).faults result };
}
