ghost use Rattle.lore_lists.specs.Pieces.{OutState, Puts};

/// Where the pieces of a text are put, one behind the other.
pub trait Out {
    type Fault;

    /// How far the pieces have come: the bytes put so far, where they are told, and a count of the
    /// puts that failed. The count never falls, rises at a fault that isn't want of memory, and
    /// stops at 2^64 - 1.
    ghost state: { Self → OutState };

    /// The faults that are want of memory.
    ghost is_memory: { Self.Fault → Type 0 };

    /// Puts `piece` behind the pieces before. A fault has put a front of it, and not the whole.
    fn put(&mut self, piece: &[u8]) -> Result<(), Self::Fault>
        ensures { Puts is_memory (state self.old) piece.now (state self.new) result };
}
