ghost use Rattle.std.specs.Prelude.{◌≡◌, ◌↔◌, ◌+◌, ◌<◌, ◌++◌, length, sum_by};
ghost use Rattle.std.specs.Prelude.{AllPairs, Contains, IsTrue, OnOk};
ghost use Rattle.lore_base.specs.Walks.{edge_of};
ghost use Rattle.lore_base.specs.TargetSets.{IsStep, IsTargetSet, LeavesTo, ListsInOrder};
ghost use Rattle.product_walk.specs.ProductWalks.{IsWalked, reads_out};
ghost use Rattle.word_walks.specs.WordWalks.{TakesAtMost};
ghost use Rattle.word_walks.specs.inside.Levels.{Gains, IsEndBy, item_if};

use index_traits::Adjacent;
use lore_base::{Edge, EdgeBuf, Label, NoMemory, Oid, OidBuf, Steps};
use std::alloc::Global;
use std::mem;
use std::sync::ledger::Ledger;

// The objects that the labels of a word lead to so far, and lists whose room is used again.
#[derive(Drop)]
pub(crate) struct Level {
    pub(crate) oids: OidBuf,
    next: OidBuf,
    edges: EdgeBuf,
}

// No object yet. Takes no memory.
pub(crate) fn no_level(alloc: Global) -> Level {
    Level {
        oids: OidBuf::new(alloc),
        next: OidBuf::new(alloc),
        edges: EdgeBuf::new(alloc),
    }
}

// Walks the word from the object: the level is then its target set.
pub(crate) fn walk_word<A: Adjacent, L: Ledger>(
    level: &mut Level,
    graph: &A,
    word: &[Label],
    from: Oid,
    steps: &mut Steps<L>,
) -> Result<(), NoMemory>
    ensures set { OnOk result
        (IsTargetSet (A.edges graph.now) from word.now level.new.oids) }
    ensures steps { OnOk result (TakesAtMost (length word.now) (reads_out (A.edges graph.now))
        (IsWalked (A.edges graph.now) from) steps.old steps.new) }
{
    level.oids.cut(0);
    level.oids.push(from)?;
    'labels: for label in word {
        go_on(level, graph, *label, steps)?;
    }
    Ok(())
}

// Goes on from the level along the edges with the label.
fn go_on<A: Adjacent, L: Ledger>(
    level: &mut Level,
    graph: &A,
    label: Label,
    steps: &mut Steps<L>,
) -> Result<(), NoMemory>
    ensures set { OnOk result
        (IsStep (A.edges graph.now) level.old.oids label level.new.oids) }
    ensures steps { OnOk result
        (steps.new ≡ steps.old + sum_by (reads_out (A.edges graph.now)) level.old.oids) }
{
    level.next.cut(0);
    push_step(
        graph,
        level.oids.as_slice(),
        label,
        &mut level.edges,
        &mut level.next,
        steps,
    )?;
    put_in_order(&mut level.next);
    mem::swap(&mut level.oids, &mut level.next);
    Ok(())
}

// Appends the children of the objects by the label, in any order, some perhaps more than once.
fn push_step<A: Adjacent, L: Ledger>(
    graph: &A,
    level: &[Oid],
    label: Label,
    edges: &mut EdgeBuf,
    next: &mut OidBuf,
    steps: &mut Steps<L>,
) -> Result<(), NoMemory>
    ensures gains { OnOk result
        (Gains (LeavesTo (A.edges graph.now) level.now label) next.old next.new) }
    ensures steps { OnOk result
        (steps.new ≡ steps.old + sum_by (reads_out (A.edges graph.now)) level.now) }
{
    'oids: for oid in level {
        push_children(graph, *oid, label, edges, next, steps)?;
    }
    Ok(())
}

// Appends the children of the object by the label, in the order of its edges. These are put into
// `edges`.
fn push_children<A: Adjacent, L: Ledger>(
    graph: &A,
    oid: Oid,
    label: Label,
    edges: &mut EdgeBuf,
    next: &mut OidBuf,
    steps: &mut Steps<L>,
) -> Result<(), NoMemory>
    ensures gains { OnOk result (Gains
        (λ child. Contains (A.edges graph.now) (edge_of oid label child)) next.old next.new) }
    ensures steps { OnOk result (steps.new ≡ steps.old + reads_out (A.edges graph.now) oid) }
{
    edges.cut(0);
    graph.out_edges(oid, edges, steps)?;
    push_ends(edges.as_slice(), label, next)
}

// Appends the far ends of the edges with the label.
fn push_ends(edges: &[Edge], label: Label, next: &mut OidBuf) -> Result<(), NoMemory>
    ensures { OnOk result (Gains (IsEndBy edges.now label) next.old next.new) }
{
    'edges: for edge in edges {
        push_if(next, edge.label.0 == label.0, edge.child)?;
    }
    Ok(())
}

// Puts the object behind the others where it passes.
fn push_if(next: &mut OidBuf, passes: bool, oid: Oid) -> Result<(), NoMemory>
    ensures { OnOk result (next.new ≡ next.old ++ item_if passes oid) }
{
    if passes {
        next.push(oid)?;
    }
    Ok(())
}

// Puts the objects into ascending order, each once. Mostly they are so already.
fn put_in_order(oids: &mut OidBuf)
    ensures { ListsInOrder (Contains oids.old) oids.new }
{
    if !ascends(oids.as_slice()) {
        oids.sort_set();
    }
}

// Whether each object has a greater number than the one before it.
fn ascends(oids: &[Oid]) -> bool
    ensures { IsTrue result ↔ AllPairs (λ a b. a.0 < b.0) oids.now }
{
    'places: for place in 1..oids.len() {
        if oids[place].0 <= oids[place - 1].0 {
            return false;
        }
    }
    true
}
