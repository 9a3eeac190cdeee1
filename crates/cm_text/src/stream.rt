//! What reads bytes and what writes them, with the meanings that every stream has.
ghost use Rattle.std.specs.Prelude.{ℕ, ◌≡◌, ◌<◌, ◌≤◌, List, Option, length, IfOk, OnErr};
ghost use Rattle.std.specs.Io.{ReadsAtMost, WritesAtMost};
ghost use Rattle.std.specs.Io.KnownBytes.{ReadConsumes, WriteAppends};
ghost use Rattle.cm_text.specs.Count.{Rose, next_count};

use crate::error::Failed;

/// A source of bytes.
pub trait Source {
    // The bytes that reads will give from here on, or None where the source doesn't tell.
    ghost left: { Self → Option (List ℕ) };

    // How many faults there were. It never falls.
    ghost faults: { Self → ℕ };

    // How many reads there were, which stops at the last value of a u64.
    ghost reads: { Self → ℕ };

    /// Fills the front of `into` with the next bytes, and returns how many. It is 0 for a room
    /// that isn't empty only at the end of input. `Failed` comes only where the count of faults rose,
    /// and then no byte is gone.
    fn read(&mut self, into: &mut [u8]) -> Result<usize, Failed>
        ensures bound { ReadsAtMost result into.new }
        ensures bytes { ReadConsumes (left self.old) (left self.new) result into.new }
        ensures fault { OnErr result (Rose (faults self.old) (faults self.new)) }
        ensures kept { faults self.old ≤ faults self.new }
        ensures counted { reads self.new ≡ next_count (reads self.old) };
}

/// A sink of bytes.
pub trait Sink {
    // The bytes that were taken so far, or None where the sink doesn't tell.
    ghost taken: { Self → Option (List ℕ) };

    // How many faults there were. It never falls.
    ghost faults: { Self → ℕ };

    /// Takes the first bytes of `piece`, and returns how many: at least 1 where the piece isn't empty.
    /// `Failed` comes only where the count of faults rose, and then nothing was taken.
    fn write(&mut self, piece: &[u8]) -> Result<usize, Failed>
        ensures bound { WritesAtMost result piece.now }
        ensures progress { IfOk result (λ count. 0 < length piece.now → 0 < count) }
        ensures bytes { WriteAppends (taken self.old) (taken self.new) result piece.now }
        ensures fault { OnErr result (Rose (faults self.old) (faults self.new)) }
        ensures kept { faults self.old ≤ faults self.new };
}
