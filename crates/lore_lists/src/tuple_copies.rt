use crate::lists::TryCopy;
use crate::no_memory::NoMemory;
use std::alloc::Global;

impl<A: TryCopy + Drop, B: TryCopy> TryCopy for (A, B) {
    ghost Seen = { A.Seen × B.Seen };

    ghost seen = { λ pair. (A.seen pair.0, B.seen pair.1) };

    fn try_copy(&self, alloc: Global) -> Result<Self, NoMemory> {
        let first = self.0.try_copy(alloc)?;
        Ok((first, self.1.try_copy(alloc)?))
    }
}

impl<A: TryCopy + Drop, B: TryCopy + Drop, C: TryCopy> TryCopy for (A, B, C) {
    ghost Seen = { A.Seen × B.Seen × C.Seen };

    ghost seen = { λ triple. (A.seen triple.0, B.seen triple.1, C.seen triple.2) };

    fn try_copy(&self, alloc: Global) -> Result<Self, NoMemory> {
        let first = self.0.try_copy(alloc)?;
        let second = self.1.try_copy(alloc)?;
        Ok((first, second, self.2.try_copy(alloc)?))
    }
}
