ghost use Rattle.std.specs.Prelude.{◌≡◌, ◌↔◌, ◌+◌, ◌≤◌, IfOk, OnOk, OnErr};
ghost use Rattle.graph_search.specs.Closures.{LeadsFromPlace, Lists};
ghost use Rattle.lore_base.specs.Lists.{ExtendsBy};
ghost use Rattle.lore_base.specs.Paths.{path_tree, leaves};
ghost use Rattle.lore_base.specs.TargetSets.{ListsInOrder};
ghost use Rattle.path_expr.specs.Machines.{IsIn};
ghost use Rattle.set_walk.specs.Types.{Oid as TheOid, LEAVES};
ghost use Rattle.index_traits.specs.Counts.{IsCount};
ghost use Rattle.set_walk.specs.SetPaths.{IsReachedBySets};
ghost use Rattle.set_walk.specs.inside.SetWalks.{HasState, Walked, walked_of, Leads};
ghost use Rattle.set_walk.specs.inside.SetWalks.{IsNext, AreStarts, IsEnded};

use crate::ends::{append_ended, count_ended};
use crate::set_graph::SetGraph;
use crate::state_marks::StateMarks;
use graph_search::{Counter, Space, search};
use lore_base::{Label, LabelTest, NoMemory, OidBuf, Path};
use path_expr::{Automaton, States};
use std::alloc::Global;

// A graph of sets walked by an automaton: a node under a state leads to the next node by a label
// under the states that the label leads to.
#[derive(Drop)]
struct SetWalk<'a, G, T> {
    graph: &'a G,
    labels: &'a T,
    automaton: &'a Automaton,
}

// Appends the node with the states, if there are any.
fn push_node<N: Copy>(
    out: &mut Vec<(N, StateMarks)>,
    node: N,
    states: States,
) -> Result<(), NoMemory>
    ensures { OnOk result (Lists HasState (λ there. (there.0 ≡ node) × IsIn states there.1)
        out.old.items out.new.items) }
{
    if states.is_empty() {
        return Ok(());
    }
    out.push((node, StateMarks(states)))?;
    Ok(())
}

// Appends the nodes that the edges lead to, each with the states that its label leads to from the
// states.
fn push_edges<N: Copy, T: LabelTest>(
    automaton: &Automaton,
    labels: &T,
    edges: &[(Label, N)],
    states: States,
    out: &mut Vec<(N, StateMarks)>,
) -> Result<(), NoMemory>
    ensures { OnOk result (Lists HasState
        (IsNext (T.texts labels.now) automaton.now edges.now states)
        out.old.items out.new.items) }
{
    'edges: for edge in edges {
        let after = automaton.step(states, edge.0, labels);
        push_node(out, edge.1, after)?;
    }
    Ok(())
}

impl<'a, G: SetGraph, T: LabelTest> Space<()> for SetWalk<'a, G, T> {
    type Node = G::Node;

    type Marks = StateMarks;

    ghost Seen = { Walked G };

    ghost seen = { λ walk. walked_of walk.graph.now (T.texts walk.labels.now) walk.automaton.now };

    ghost leads = { λ seen. Leads (G.goes seen.graph) seen.labels seen.machine };

    ghost cost = { λ _ _. 0 };

    fn push_next(
        &mut self,
        _alloc: Global,
        place: (G::Node, StateMarks),
        out: &mut Vec<(G::Node, StateMarks)>,
        steps: &mut (),
    ) -> Result<(), NoMemory>
        ensures next { OnOk result (Lists HasState (LeadsFromPlace HasState
            (Leads (G.goes self.old.graph.now) (T.texts self.old.labels.now)
            self.old.automaton.now) place) out.old.items out.new.items) }
        ensures steps { OnOk result
            (⟦<() as Counter>⟧.count steps.new ≡ ⟦<() as Counter>⟧.count steps.old + 0) }
        ensures same { self.new ≡ self.old }
    {
        let () = *steps;
        let edges = self.graph.edges(place.0);
        push_edges(self.automaton, self.labels, edges, place.1.0, out)
    }

    ghost exact = { G.exact };
}

// The node under the states, if there is a node.
fn starts_at<N: Copy>(
    alloc: Global,
    start: Option<N>,
    states: States,
) -> Result<Vec<(N, StateMarks)>, NoMemory>
    ensures { IfOk result (λ starts. AreStarts start states starts.items) }
{
    let mut starts = Vec::new(alloc);
    let Some(node) = start else {
        return Ok(starts);
    };
    starts.push((node, StateMarks(states)))?;
    Ok(starts)
}

// The nodes that are met along the path from the start, each with the states of the path's
// automaton there. Where there is no start there are none.
fn nodes_met<G: SetGraph, T: LabelTest>(
    alloc: Global,
    graph: &G,
    labels: &T,
    path: &Path,
    start: Option<G::Node>,
) -> Result<Vec<(G::Node, StateMarks)>, NoMemory>
    requires leaves { leaves (path_tree path.now) ≤ LEAVES }
    ensures { IfOk result (λ met. (oid : TheOid) → IsEnded (G.has graph.now) met.items oid
        ↔ IsReachedBySets (T.texts labels.now) (G.goes graph.now) (G.has graph.now)
        (path_tree path.now) start oid) }
{
    let automaton = Automaton::build(alloc, path)?;
    let mut walk = SetWalk {
        graph,
        labels,
        automaton: &automaton,
    };
    let starts = starts_at(alloc, start, automaton.starts())?;
    search(alloc, &mut walk, starts.as_slice(), &mut ())
}

/// Appends the objects that the path reaches from the start along the graph of sets, ascending,
/// each once: those of the nodes that its words lead to. Where there is no start there are none.
pub fn select_by_sets<G: SetGraph, T: LabelTest>(
    alloc: Global,
    graph: &G,
    labels: &T,
    path: &Path,
    start: Option<G::Node>,
    buf: &mut OidBuf,
) -> Result<(), NoMemory>
    requires leaves { leaves (path_tree path.now) ≤ LEAVES }
    ensures objects { OnOk result (ExtendsBy (ListsInOrder
        (IsReachedBySets (T.texts labels.now) (G.goes graph.now) (G.has graph.now)
        (path_tree path.now) start)) buf.old buf.new) }
    ensures err { OnErr result (buf.new ≡ buf.old) }
{
    let met = nodes_met(alloc, graph, labels, path, start)?;
    append_ended(alloc, graph, met.as_slice(), buf)
}

/// How many objects `select_by_sets` appends. Where one node alone is met at the end, none is copied.
pub fn count_by_sets<G: SetGraph, T: LabelTest>(
    alloc: Global,
    graph: &G,
    labels: &T,
    path: &Path,
    start: Option<G::Node>,
) -> Result<usize, NoMemory>
    requires leaves { leaves (path_tree path.now) ≤ LEAVES }
    ensures { IfOk result (IsCount
        (IsReachedBySets (T.texts labels.now) (G.goes graph.now) (G.has graph.now)
        (path_tree path.now) start)) }
{
    let met = nodes_met(alloc, graph, labels, path, start)?;
    count_ended(alloc, graph, met.as_slice())
}
