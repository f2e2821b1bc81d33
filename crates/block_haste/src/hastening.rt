ghost use Rattle.std.specs.Prelude.{◌≡◌, ◌<◌, ◌≤◌, ℕ, List, [], length, All, AllPairs, Contains};
ghost use Rattle.std.specs.Prelude.{IfOk, OnOk};
ghost use Rattle.std.specs.Prelude.{slice_index_or};
ghost use Rattle.std.specs.Ordering.{nat_cmp, ordering_then};
ghost use Rattle.std.specs.declared.cmp.Ordering.TheVariants.{Less};
ghost use Rattle.block_rounds.specs.Partitions.{Rows, IsCoarse};
ghost use Rattle.block_haste.specs.inside.Marking.{stands, keys_of, change_cmp, AreEdgesOf};
ghost use Rattle.block_haste.specs.inside.Marking.{AreEvents};
ghost use Rattle.block_haste.specs.inside.Hastening.{AreTouched, HaveNoMarks, AreChanged};
ghost use Rattle.block_haste.specs.inside.Hastening.{AreInLists};
ghost use Rattle.block_haste.specs.inside.Hastening.{IsNoted};
ghost use Rattle.block_haste.specs.inside.Hastening.{AreListed, AreReached, IsParted};
ghost use Rattle.block_haste.specs.inside.Hastening.{IsHastening};

use crate::exchanging::exchange_all;
use crate::graph::Graph;
use crate::marking::{Change, mark_touched};
use crate::moving::{apply, changes_in, file_all, moves_of};
use crate::recounting::{DenseEdge, Recounted, recount};
use crate::tally::Tally;
use lore_lists::{Listing, NoMemory};
use std::alloc::Global;

// A partition that rounds part: each node's number and mark; for each block the nodes that were put
// into it, and for each new one the block that it left.
#[derive(Drop)]
pub(crate) struct Parting {
    pub(crate) numbers: Vec<usize>,
    pub(crate) marks: Vec<Option<u64>>,
    pub(crate) lists: Vec<Listing<usize>>,
    pub(crate) origins: Vec<usize>,
}

// A partition between two rounds. Each node's tag is the number under which the edges that leave
// it are counted; `changed` has the nodes whose numbers aren't their tags.
#[derive(Drop)]
pub(crate) struct Hastening {
    pub(crate) tags: Vec<usize>,
    pub(crate) tally: Tally,
    pub(crate) changed: Vec<usize>,
    pub(crate) parts: Parting,
}

// The places of the edges that leave the nodes.
fn places_of(
    alloc: Global,
    outs: &[Listing<usize>],
    nodes: &[usize],
) -> Result<Vec<usize>, NoMemory>
    requires { All (λ node. node < length outs.now) nodes.now }
    ensures every { IfOk result (λ places. (node place : ℕ) → Contains nodes.now node
        → Contains (slice_index_or outs.now node []) place → Contains places.items place) }
    ensures within { IfOk result (λ places. (count : ℕ)
        → All (λ own. All (λ place. place < count) own) outs.now
        → All (λ place. place < count) places.items) }
{
    let mut places = Vec::new(alloc);
    'nodes: for node in nodes {
        places.extend_from_slice(outs[*node].as_slice())?;
    }
    Ok(places)
}

// What entered nodes anew from changed ones, in order, each once; the edges that leave these are
// counted under their numbers.
fn entered(
    alloc: Global,
    edges: &[DenseEdge],
    outs: &[Listing<usize>],
    changed: &[usize],
    numbers: &[usize],
    tally: Tally,
) -> Result<Recounted, NoMemory>
    requires changed { All (λ node. node < length outs.now) changed.now }
    requires within { All (λ own. All (λ place. place < length edges.now) own) outs.now }
    requires parents { All (λ edge. edge.0 < length numbers.now) edges.now }
    requires every { length tally ≡ length edges.now }
    ensures counted { IfOk result (λ next. (tags : List ℕ) → tally ≡ keys_of edges.now tags
        → AreReached edges.now outs.now tags numbers.now changed.now
        → next.tally ≡ keys_of edges.now numbers.now) }
    ensures events { IfOk result (λ next. (rows : Rows) (tags : List ℕ) → AreEdgesOf rows edges.now
        → tally ≡ keys_of edges.now tags
        → AreReached edges.now outs.now tags numbers.now changed.now
        → AreEvents rows tags numbers.now next.events) }
    ensures ascend { IfOk result (λ next. AllPairs
        (λ a b. ordering_then (nat_cmp a.0 b.0) (change_cmp a.1 b.1) ≡ Less) next.events) }
{
    let places = places_of(alloc, outs, changed)?;
    let recounted = recount(alloc, edges, places.as_slice(), numbers, tally)?;
    let Recounted { tally, mut events } = recounted;
    events.sort_set();
    Ok(Recounted { tally, events })
}

// Gives the changed nodes their numbers for tags.
fn catch_up(tags: &mut Vec<usize>, numbers: &[usize], changed: &[usize])
    requires every { length tags.old.items ≡ length numbers.now }
    requires within { All (λ node. node < length numbers.now) changed.now }
    requires changes { AreChanged tags.old.items numbers.now changed.now }
    ensures { tags.new.items ≡ numbers.now }
{
    'nodes: for node in changed {
        tags[*node] = numbers[*node];
    }
}

// Takes the marks of the touched nodes away.
fn clear(touched: &[usize], marks: &mut Vec<Option<u64>>)
    requires within { All (λ node. node < length marks.old.items) touched.now }
    requires touched { AreTouched marks.old.items touched.now }
    ensures none { HaveNoMarks marks.new.items }
    ensures every { length marks.new.items ≡ length marks.old.items }
{
    'nodes: for node in touched {
        marks[*node] = None;
    }
}

// Puts the node behind the others, if its number isn't its tag.
fn note_change(
    changed: &mut Vec<usize>,
    node: usize,
    tag: usize,
    number: usize,
) -> Result<(), NoMemory>
    ensures { OnOk result (IsNoted node tag number changed.old.items changed.new.items) }
{
    if tag != number {
        changed.push(node)?;
    }
    Ok(())
}

// Those of the nodes whose numbers aren't their tags.
fn differing(
    alloc: Global,
    nodes: &[usize],
    tags: &[usize],
    numbers: &[usize],
) -> Result<Vec<usize>, NoMemory>
    requires within { All (λ node. node < length numbers.now) nodes.now }
    requires every { length tags.now ≡ length numbers.now }
    requires changes { AreChanged tags.now numbers.now nodes.now }
    ensures changes { IfOk result (λ changed. AreChanged tags.now numbers.now changed.items) }
    ensures within { IfOk result
        (λ changed. All (λ node. node < length numbers.now) changed.items) }
{
    let mut changed = Vec::new(alloc);
    'nodes: for node in nodes {
        note_change(&mut changed, *node, tags[*node], numbers[*node])?;
    }
    Ok(changed)
}

// Parts blocks by what entered nodes anew. Answers the nodes that got other numbers, and perhaps
// more.
fn part(
    alloc: Global,
    events: &[(usize, Change)],
    tally: &Tally,
    parts: &mut Parting,
) -> Result<Vec<usize>, NoMemory>
    requires within { All (λ event. event.0 < length parts.old.numbers.items) events.now }
    requires marks { length parts.old.marks.items ≡ length parts.old.numbers.items }
    requires none { HaveNoMarks parts.old.marks.items }
    requires lists { AreInLists parts.old.lists.items parts.old.numbers.items }
    ensures parted { IfOk result (λ touched. IsParted (stands tally.now) events.now
        parts.old.numbers.items parts.new.numbers.items touched.items) }
    ensures none { OnOk result (HaveNoMarks parts.new.marks.items) }
    ensures lists { OnOk result (AreInLists parts.new.lists.items parts.new.numbers.items) }
    ensures within { IfOk result
        (λ touched. All (λ node. node < length parts.old.numbers.items) touched.items) }
    ensures every { OnOk result
        (length parts.new.numbers.items ≡ length parts.old.numbers.items) }
    ensures marked { OnOk result (length parts.new.marks.items ≡ length parts.old.marks.items) }
    ensures grown { OnOk result
        (length parts.old.origins.items ≤ length parts.new.origins.items) }
{
    let touched = mark_touched(alloc, events, tally, &mut parts.marks)?;
    let moves = moves_of(
        alloc,
        touched.as_slice(),
        parts.marks.as_slice(),
        parts.numbers.as_slice(),
        parts.lists.as_slice(),
        &mut parts.origins,
    )?;
    let changes = changes_in(alloc, moves.as_slice(), parts.numbers.as_slice())?;
    apply(moves.as_slice(), &mut parts.numbers);
    file_all(alloc, changes.as_slice(), &mut parts.lists)?;
    clear(touched.as_slice(), &mut parts.marks);
    Ok(touched)
}

// One round: what entered nodes anew from changed ones parts their blocks, and a part with more
// than half of the nodes of its block's list gets the number. What is parted isn't bisimilar.
fn haste(alloc: Global, graph: &Graph, state: Hastening) -> Result<Hastening, NoMemory>
    requires graph { AreListed graph.now.rows.now graph.now.edges.items graph.now.outs.items }
    requires state { IsHastening graph.now.rows.now graph.now.kinds.now graph.now.edges.items
        state.tags.items state.parts.numbers.items state.tally state.parts.lists.items
        state.changed.items state.parts.marks.items }
    ensures { IfOk result (λ next. IsHastening graph.now.rows.now graph.now.kinds.now
        graph.now.edges.items next.tags.items next.parts.numbers.items next.tally
        next.parts.lists.items next.changed.items next.parts.marks.items) }
{
    let Hastening {
        mut tags,
        tally,
        changed,
        mut parts,
    } = state;
    let count = parts.origins.len();
    let edges = graph.edges.as_slice();
    let outs = graph.outs.as_slice();
    let numbers = parts.numbers.as_slice();
    let recounted = entered(alloc, edges, outs, changed.as_slice(), numbers, tally)?;
    catch_up(&mut tags, numbers, changed.as_slice());
    let Recounted { tally, events } = recounted;
    let mut touched = part(alloc, events.as_slice(), &tally, &mut parts)?;
    exchange_all(
        alloc,
        &mut parts.lists,
        &mut parts.numbers,
        &mut touched,
        parts.origins.as_slice(),
        count,
    )?;
    let numbers = parts.numbers.as_slice();
    let changed = differing(alloc, touched.as_slice(), tags.as_slice(), numbers)?;
    Ok(Hastening {
        tags,
        tally,
        changed,
        parts,
    })
}

// Rounds until none makes a new block.
pub(crate) fn hastened(
    alloc: Global,
    graph: &Graph,
    state: Hastening,
) -> Result<Vec<usize>, NoMemory>
    requires graph { AreListed graph.now.rows.now graph.now.edges.items graph.now.outs.items }
    requires state { IsHastening graph.now.rows.now graph.now.kinds.now graph.now.edges.items
        state.tags.items state.parts.numbers.items state.tally state.parts.lists.items
        state.changed.items state.parts.marks.items }
    ensures coarse { IfOk result
        (λ numbers. IsCoarse graph.now.rows.now graph.now.kinds.now numbers.items) }
    ensures every { IfOk result (λ numbers. length numbers.items ≡ length graph.now.rows.now) }
{
    let mut state = state;
    'rounds: loop {
        let count = state.parts.origins.len();
        state = haste(alloc, graph, state)?;
        if state.parts.origins.len() <= count {
            let Hastening { parts, .. } = state;
            let Parting { numbers, .. } = parts;
            return Ok(numbers);
        }
    }
}
