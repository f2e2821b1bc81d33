//! What a source and a sink tell, and what their calls answer.

ghost use Rattle.std.specs.Prelude.{ℕ, List, Option};
ghost use Rattle.std.specs.Io.{ReadsAtMost};
ghost use Rattle.std.specs.Io.KnownBytes.{ReadConsumes, WriteAppends};
ghost use Rattle.lore_ends.specs.Outcomes.{HasCause, Accepts};

use thiserror::Error;

/// A read or a write failed. The source or sink has counted it.
#[derive(Clone, Copy, Debug, PartialEq, Eq, Error)]
#[error("a read or a write failed")]
pub struct Failed;

/// Where a script comes from. It may tell the bytes that are left, and it counts its faults.
pub trait Source {
    /// The bytes that are left, where the source tells them.
    ghost left: { Self → Option (List ℕ) };

    /// A count of the reads that failed. It never falls, rises at a fault, and stops at 2^64 - 1.
    ghost faults: { Self → ℕ };

    /// Puts bytes from the front of what is left at the front of `buf` and gives their number. 0
    /// for a `buf` that isn't empty means the end. A fault takes nothing and is counted.
    fn read(&mut self, buf: &mut [u8]) -> Result<usize, Failed>
        ensures bound { ReadsAtMost result buf.new }
        ensures bytes { ReadConsumes (left self.old) (left self.new) result buf.new }
        ensures cause { HasCause (faults self.old) (faults self.new) result };
}

/// Where replies go. It may tell the bytes that were written, and it counts its faults.
pub trait Sink {
    /// The bytes written so far, where the sink tells them.
    ghost written: { Self → Option (List ℕ) };

    /// A count of the writes that failed. It never falls, rises at a fault, and stops at 2^64 - 1.
    ghost faults: { Self → ℕ };

    /// Appends bytes from the front of `piece` and gives their number, at least 1 for a `piece`
    /// that isn't empty. A fault appends nothing and is counted.
    fn write(&mut self, piece: &[u8]) -> Result<usize, Failed>
        ensures bound { Accepts result piece.now }
        ensures bytes { WriteAppends (written self.old) (written self.new) result piece.now }
        ensures cause { HasCause (faults self.old) (faults self.new) result };
}
