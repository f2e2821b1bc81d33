ghost use Rattle.std.specs.Prelude.{◌≡◌, [], OnOk, OnErr};
ghost use Rattle.lore_base.specs.TargetSets.{ListsInOrder};
ghost use Rattle.product_walk.specs.ProductWalks.{IsWalked, reads_out};
ghost use Rattle.word_walks.specs.WordWalks.{IsReachedBy, TakesAtMost, length_of};

use crate::levels::{Level, no_level, walk_word};
use crate::only_words::OnlyWord;
use index_traits::Adjacent;
use lore_base::{NoMemory, Oid, OidBuf, Steps};
use std::alloc::Global;
use std::marker::Model;
use std::mem;
use std::sync::ledger::Ledger;

/// The objects that a word reached from an object, with the lists that a walk goes through, whose
/// room the next walk uses. Contracts see the objects.
#[derive(Drop)]
pub struct Reached {
    found: OidBuf,
    level: Level,
}

impl Model for Reached {
    ghost use Rattle.std.specs.Prelude.{List};
    ghost use Rattle.word_walks.specs.Types.{Oid};

    ghost Value = { List Oid };

    ghost view = { λ reached. reached.found };
}

impl Reached {
    /// No object was reached yet. Takes no memory.
    pub fn new(alloc: Global) -> Reached
        ensures { result ≡ [] }
    {
        Reached {
            found: OidBuf::new(alloc),
            level: no_level(alloc),
        }
    }

    /// The objects, ascending, each once.
    pub fn as_slice(&self) -> &[Oid]
        ensures { result.now ≡ self.now }
    {
        self.found.as_slice()
    }

    /// Gives the objects out, and has none from then on.
    pub fn take(&mut self) -> OidBuf
        ensures given { result ≡ self.old }
        ensures left { self.new ≡ [] }
    {
        let alloc = self.found.allocator();
        mem::replace(&mut self.found, OidBuf::new(alloc))
    }

    /// Has these objects in place of those before.
    pub fn put(&mut self, oids: OidBuf)
        ensures { self.new ≡ oids }
    {
        self.found = oids;
    }

    /// Walks the word from the object, and has the objects then that it reaches, ascending, each
    /// once, in place of those before.
    ///
    /// The steps grow, for each label of the word, by at most the reads of each object that is
    /// walked to from `from`: one, and one more for each edge that leaves it. Where memory is
    /// refused the objects are those before, and nothing is promised of `steps`.
    pub fn walk<A: Adjacent, L: Ledger>(
        &mut self,
        graph: &A,
        word: &OnlyWord,
        from: Oid,
        steps: &mut Steps<L>,
    ) -> Result<(), NoMemory>
        ensures objects { OnOk result
            (ListsInOrder (IsReachedBy word.now (A.edges graph.now) from) self.new) }
        ensures steps { OnOk result (TakesAtMost (length_of word.now)
            (reads_out (A.edges graph.now)) (IsWalked (A.edges graph.now) from)
            steps.old steps.new) }
        ensures err { OnErr result (self.new ≡ self.old) }
    {
        match word {
            OnlyWord::Lacking => {
                self.found.cut(0);
                Ok(())
            }
            OnlyWord::Labels(labels) => {
                walk_word(&mut self.level, graph, labels.as_slice(), from, steps)?;
                mem::swap(&mut self.found, &mut self.level.oids);
                Ok(())
            }
        }
    }
}
