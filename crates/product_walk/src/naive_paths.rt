ghost use Rattle.std.specs.Prelude.{◌≡◌};
ghost use Rattle.lore_base.specs.Databases.{AreAscendingEdges};
ghost use Rattle.lore_base.specs.Paths.{Reaches};

use crate::direction::Listed;
use crate::product::Product;
use crate::searches::append_ended;
use crate::state_marks::StateMarks;
use graph_search::search;
use index_traits::Paths;
use lore_base::{EdgeBuf, LabelTest, NoMemory, Oid, OidBuf, Path};
use path_expr::{Automaton, Mover};
use std::alloc::Global;
use std::marker::Model;

/// Paths over a plain list of edges and a table of labels, found by going over the list for each
/// object on the way. Contracts see the texts and the edges.
#[derive(Drop)]
pub struct NaivePaths<'a, T: LabelTest> {
    edges: &'a EdgeBuf,
    labels: &'a T,
}

impl<'a, T: LabelTest> Model for NaivePaths<'a, T> {
    ghost use Rattle.product_walk.specs.ProductWalks.{PathsOver};

    ghost Value = { PathsOver };

    ghost view = { λ paths. record { labels = T.texts paths.labels.now; edges = paths.edges.now } };
}

impl<'a, T: LabelTest> NaivePaths<'a, T> {
    /// The paths over these edges, which ascend by parent, label and child, and this table of labels.
    /// Takes no memory.
    pub fn new(edges: &'a EdgeBuf, labels: &'a T) -> NaivePaths<'a, T>
        requires { AreAscendingEdges edges.now }
        ensures edges { result.edges ≡ edges.now }
        ensures labels { result.labels ≡ T.texts labels.now }
    {
        NaivePaths { edges, labels }
    }
}

impl<'a, T: LabelTest> Paths for NaivePaths<'a, T> {
    ghost reaches = { λ paths. Reaches paths.labels paths.edges };

    fn select(
        &self,
        alloc: Global,
        path: &Path,
        named: Oid,
        buf: &mut OidBuf,
    ) -> Result<(), NoMemory> {
        let automaton = Automaton::build(alloc, path)?;
        let mut product = Product {
            direction: Listed { list: self.edges },
            mover: Mover::new(alloc, &automaton, self.labels),
            edges: EdgeBuf::new(alloc),
        };
        let starts = [(named, StateMarks(automaton.starts()))];
        let met = search(alloc, &mut product, starts.as_slice(), &mut ())?;
        append_ended(alloc, met.as_slice(), buf)
    }
}
