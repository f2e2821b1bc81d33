ghost use Rattle.std.specs.Prelude.{◌≡◌, ◌≤◌, length, map, IfOk, IfSome, OnOk, OnErr};
ghost use Rattle.lore_base.specs.Lists.{Extends, ExtendsBy};
ghost use Rattle.lore_base.specs.Paths.{seq, path_tree, path_trees, trees_of, leaves, leaves_of};
ghost use Rattle.lore_base.specs.Paths.{Reaches};
ghost use Rattle.lore_base.specs.TargetSets.{ListsInOrder};
ghost use Rattle.product_walk.specs.Types.{LEAVES};
ghost use Rattle.product_walk.specs.ProductWalks.{IsWalked, TakesReads, reads_out};
ghost use Rattle.product_walk.specs.inside.Ways.{IsWay};

use crate::direction::Along;
use crate::label_paths::{are_labels, reach_in_turn};
use crate::label_step::LabelStep;
use crate::searches::forward;
use index_traits::Adjacent;
use lore_base::{EdgeBuf, LabelTest, NoMemory, Oid, OidBuf, Path, PathList, Pattern, Steps};
use path_expr::Automaton;
use std::alloc::Global;
use std::marker::Model;
use std::sync::ledger::Ledger;

/// A path that is made ready once and then walked from many objects. Contracts see it as that path.
#[derive(Drop)]
pub struct Route<'a> {
    path: &'a Path,
    way: Way<'a>,
}

// How a path is walked.
#[derive(Drop)]
pub(crate) enum Way<'a> {
    // No word but the empty one: the object itself is reached.
    Stay,
    // One label: the children of the object by it are reached.
    Child(&'a Pattern),
    // Labels one after another: children of children are reached.
    InTurn(&'a [Path]),
    // Any words: the automaton finds what is reached.
    Search(Automaton),
}

impl<'a> Model for Route<'a> {
    ghost use Rattle.std.specs.Coded.{codes};
    ghost use Rattle.lore_base.specs.contracts.paths.Path as path_contract;
    ghost use Rattle.lore_base.specs.declared.paths.Path.{Path};
    ghost use Rattle.lore_base.specs.Paths.{path_tree};

    ghost Value = { Path };

    ghost coded = { Prim.hlevel (codes, path_contract.the_row.coded) };

    ghost use Rattle.product_walk.specs.inside.Ways.{IsWay};

    ghost view = { λ route. route.path.now };

    ghost invariant = { λ route. IsWay (path_tree route.path.now) route.way };
}

impl<'a> Route<'a> {
    /// Makes the path ready. It has at most 64 leaves.
    pub fn new(alloc: Global, path: &'a Path) -> Result<Route<'a>, NoMemory>
        requires { leaves (path_tree path.now) ≤ LEAVES }
        ensures { IfOk result (λ route. route ≡ path.now) }
    {
        let way = match short_way(path) {
            Some(way) => way,
            None => Way::Search(Automaton::build(alloc, path)?),
        };
        Ok(Route { path, way })
    }

    /// Appends to `buf`, ascending, each once, the objects that the path reaches from `from`, whether
    /// or not it is live.
    ///
    /// The steps grow by at most 65 times the reads of each object that is walked to from `from`: one,
    /// and one more for each edge that leaves it. Where memory is refused, nothing is promised of
    /// `steps`.
    pub fn reach<A: Adjacent, T: LabelTest, L: Ledger>(
        &self,
        alloc: Global,
        graph: &A,
        labels: &T,
        from: Oid,
        buf: &mut OidBuf,
        steps: &mut Steps<L>,
    ) -> Result<(), NoMemory>
        ensures objects { OnOk result (ExtendsBy (ListsInOrder
            (Reaches (T.texts labels.now) (A.edges graph.now) (path_tree self.now) from))
            buf.old buf.new) }
        ensures steps { OnOk result (TakesReads (reads_out (A.edges graph.now))
            (IsWalked (A.edges graph.now) from) steps.old steps.new) }
        ensures err { OnErr result (Extends buf.old buf.new) }
    {
        let mut edges = EdgeBuf::new(alloc);
        match &self.way {
            Way::Stay => buf.push(from),
            Way::Child(pattern) => {
                let step = LabelStep {
                    direction: Along { graph },
                    labels,
                    pattern,
                };
                step.append_ends(alloc, from, &mut edges, buf, steps)
            }
            Way::InTurn(parts) => {
                reach_in_turn(alloc, graph, labels, parts, from, &mut edges, buf, steps)
            }
            Way::Search(automaton) => forward(alloc, graph, from, automaton, labels, buf, steps),
        }
    }
}

// The way of a path that needs no automaton.
pub(crate) fn short_way(path: &Path) -> Option<Way<'_>>
    requires { leaves (path_tree path.now) ≤ LEAVES }
    ensures { IfSome result (IsWay (path_tree path.now)) }
{
    match path {
        Path::Seq(parts) => short_way_in_turn(parts),
        _ => one_label(path),
    }
}

// The same of parts that are read one after another.
fn short_way_in_turn(parts: &PathList) -> Option<Way<'_>>
    requires { leaves_of (trees_of (path_trees parts.now)) ≤ LEAVES }
    ensures { IfSome result (IsWay (seq (trees_of (path_trees parts.now)))) }
{
    match parts.as_slice() {
        [] => Some(Way::Stay),
        [part] => one_label(part),
        parts => in_turn(parts),
    }
}

// The same of more parts.
fn in_turn(parts: &[Path]) -> Option<Way<'_>>
    requires leaves { leaves_of (trees_of (map path_tree parts.now)) ≤ LEAVES }
    requires two { 2 ≤ length parts.now }
    ensures { IfSome result (IsWay (seq (trees_of (map path_tree parts.now)))) }
{
    if are_labels(parts) {
        Some(Way::InTurn(parts))
    } else {
        None
    }
}

// The same of one label.
fn one_label(path: &Path) -> Option<Way<'_>>
    ensures { IfSome result (IsWay (path_tree path.now)) }
{
    match path {
        Path::Step(pattern) => Some(Way::Child(pattern)),
        _ => None,
    }
}
