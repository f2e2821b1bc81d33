ghost use Rattle.std.specs.Prelude.{◌≡◌, ℕ, ◌+◌, ◌==◌, true, length, slice_get, Some, IfOk};
ghost use Rattle.dataguide.specs.Guides.{GuideGraph};
ghost use Rattle.guide_query.specs.Types.{Origin as TheOrigin};
ghost use Rattle.guide_query.specs.inside.Origins.{HasRow, AreOrigins, first_of};

use dataguide::{Guide, Node};
use lore_base::{Label, NoMemory};
use std::alloc::Global;

// Where a node is mentioned first: by the entry at a place, or by an edge of a node.
#[derive(Clone, Copy)]
pub(crate) enum Origin {
    Unmet,
    Named(usize),
    Step(Node, Label),
}

// The first of two mentions.
fn first_of(there: Origin, origin: Origin) -> Origin
    ensures { result ≡ first_of true there origin }
{
    match there {
        Origin::Unmet => origin,
        _ => there,
    }
}

// Notes that the node is mentioned. What counts is its first mention.
fn mention(origins: &mut Vec<Origin>, node: Node, origin: Origin)
    ensures count { length origins.new.items ≡ length origins.old.items }
    ensures each { (k : ℕ) (now : TheOrigin) → slice_get origins.new.items k ≡ Some now
        → (there : TheOrigin) × (slice_get origins.old.items k ≡ Some there)
        × (now ≡ first_of (k == node.0) there origin) }
{
    let place = node.0 as usize;
    if place < origins.len() {
        origins[place] = first_of(origins[place], origin);
    }
}

// The mentions by names.
fn named_origins(alloc: Global, guide: &Guide) -> Result<Vec<Origin>, NoMemory>
    ensures { IfOk result (λ origins. AreOrigins guide.now
        (record { entries = length guide.now.entries; nodes = 0; edges = 0 }) origins.items) }
{
    let mut origins = vec![in alloc; Origin::Unmet; guide.len() as usize]?;
    'entries: for (place, entry) in guide.entries().iter().enumerate() {
        mention(&mut origins, entry.1, Origin::Named(place));
    }
    Ok(origins)
}

// Notes the nodes that the edges of a node lead to.
fn mention_edges(from: Node, edges: &[(Label, Node)], origins: &mut Vec<Origin>)
    ensures { (guide : GuideGraph) (read : ℕ) → HasRow guide.nodes from edges.now
        → AreOrigins guide
        (record { entries = read; nodes = from.0; edges = 0 }) origins.old.items
        → AreOrigins guide
        (record { entries = read; nodes = from.0 + 1; edges = 0 }) origins.new.items }
{
    'edges: for edge in edges {
        mention(origins, edge.1, Origin::Step(from, edge.0));
    }
}

// Where each node is mentioned first.
pub(crate) fn origins_of(alloc: Global, guide: &Guide) -> Result<Vec<Origin>, NoMemory>
    ensures { IfOk result (λ origins. AreOrigins guide.now
        (record {
          entries = length guide.now.entries;
          nodes = length guide.now.nodes;
          edges = 0;
        }) origins.items) }
{
    let mut origins = named_origins(alloc, guide)?;
    let nodes = guide.nodes();
    'nodes: for place in 0..guide.len() {
        let edges = nodes[place as usize].edges.as_slice();
        mention_edges(Node(place), edges, &mut origins);
    }
    Ok(origins)
}
