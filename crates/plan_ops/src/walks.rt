ghost use Rattle.std.specs.Prelude.{OnOk};
ghost use Rattle.lore_base.specs.Paths.{path_tree, Reaches};
ghost use Rattle.lore_base.specs.TargetSets.{ListsInOrder};
ghost use Rattle.word_walks.specs.WordWalks.{IsReachedBy};
ghost use Rattle.plan_ops.specs.Types.{Oid as TheOid};

use index_traits::Adjacent;
use lore_base::{LabelTest, NoMemory, Oid, OidBuf, Steps};
use product_walk::Route;
use std::alloc::Global;
use std::sync::ledger::Ledger;
use word_walks::{OnlyWord, Reached};

/// A way from objects to others.
pub(crate) trait Walks {
    /// It leads from this object to that.
    ghost leads: { Self → TheOid → TheOid → Type 0 };

    /// Walks from the object: what was reached are then the objects that the way leads to,
    /// ascending, each once.
    fn walk<L: Ledger>(
        &self,
        alloc: Global,
        from: Oid,
        reached: &mut Reached,
        steps: &mut Steps<L>,
    ) -> Result<(), NoMemory>
        ensures { OnOk result (ListsInOrder (leads self.now from) reached.new) };
}

/// Along the only word of a path.
#[derive(Drop)]
pub(crate) struct WordWalk<'w, A> {
    pub(crate) graph: &'w A,
    pub(crate) word: &'w OnlyWord,
}

impl<'w, A: Adjacent> Walks for WordWalk<'w, A> {
    ghost leads = { λ walk. IsReachedBy walk.word.now (A.edges walk.graph.now) };

    fn walk<L: Ledger>(
        &self,
        _alloc: Global,
        from: Oid,
        reached: &mut Reached,
        steps: &mut Steps<L>,
    ) -> Result<(), NoMemory> {
        reached.walk(self.graph, self.word, from, steps)
    }
}

/// Along a path of any form.
#[derive(Drop)]
pub(crate) struct RouteWalk<'w, 'r, A, T> {
    pub(crate) graph: &'w A,
    pub(crate) labels: &'w T,
    pub(crate) route: &'w Route<'r>,
}

impl<'w, 'r, A: Adjacent, T: LabelTest> Walks for RouteWalk<'w, 'r, A, T> {
    ghost leads = { λ walk. Reaches (T.texts walk.labels.now) (A.edges walk.graph.now)
        (path_tree walk.route.now) };

    fn walk<L: Ledger>(
        &self,
        alloc: Global,
        from: Oid,
        reached: &mut Reached,
        steps: &mut Steps<L>,
    ) -> Result<(), NoMemory> {
        let mut oids = OidBuf::new(alloc);
        self.route
            .reach(alloc, self.graph, self.labels, from, &mut oids, steps)?;
        reached.put(oids);
        Ok(())
    }
}
