ghost use Rattle.std.specs.Prelude.{◌≡◌, ◌<◌, false, true, not, length, replicate};
ghost use Rattle.std.specs.Prelude.{slice_index_or, slice_set, IfOk};

use lore_base::NoMemory;
use std::alloc::Global;
use std::marker::Model;

/// Places counted from 0, each in the set or not: a byte for each. Contracts see it as a list of
/// truth values.
#[derive(Debug, Drop)]
pub struct BitSet {
    places: Vec<bool>,
}

impl Model for BitSet {
    ghost use Rattle.std.specs.Prelude.{List, Bool};

    ghost Value = { List Bool };

    ghost view = { λ s. s.places.items };
}

impl BitSet {
    /// The set of none of `len` places.
    pub fn new(alloc: Global, len: u32) -> Result<BitSet, NoMemory>
        ensures { IfOk result (λ set. set ≡ replicate len false) }
    {
        let mut places = Vec::new(alloc);
        places.resize(len as usize, false)?;
        Ok(BitSet { places })
    }

    /// Puts the place into the set. Answers whether it wasn't there. Takes no memory.
    pub fn add(&mut self, place: u32) -> bool
        requires { place < length self.old }
        ensures fresh { result ≡ not (slice_index_or self.old place false) }
        ensures added { self.new ≡ slice_set self.old place true }
    {
        let place = place as usize;
        let fresh = !self.places[place];
        self.places[place] = true;
        fresh
    }

    /// Whether the place is in the set. Takes no memory.
    pub fn has(&self, place: u32) -> bool
        requires { place < length self.now }
        ensures { result ≡ slice_index_or self.now place false }
    {
        self.places[place as usize]
    }
}
