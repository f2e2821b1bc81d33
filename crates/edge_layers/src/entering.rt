ghost use Rattle.std.specs.Prelude.{◌≡◌, ◌≢◌, ◌∷◌, [], ◌++◌, IfOk, OnOk};
ghost use Rattle.edge_layers.specs.Types.{In};
ghost use Rattle.edge_layers.specs.Turned.{turn};
ghost use Rattle.edge_layers.specs.inside.Chains.{child_of, AreChains, IsEnteringRun};

use crate::chains::{Chains, chains_of};
use crate::turned::turned;
use edge_lists::Side;
use key_sort::Key;
use lore_base::{Edge, EdgeBuf, NoMemory, Oid};
use std::alloc::Global;

// The key of the child.
struct ByChild;

impl Key<Edge> for ByChild {
    ghost key_of = { λ edge. edge.child.0 };

    fn key(edge: &Edge) -> u32 {
        edge.child.0
    }
}

// The chains of the edges by their children.
pub(crate) fn child_chains(alloc: Global, edges: &[Edge]) -> Result<Chains, NoMemory>
    ensures { IfOk result
        (λ chains. AreChains child_of edges.now chains.heads.items chains.back.items) }
{
    let chains = chains_of::<ByChild>(alloc, edges, edges.len())?;
    Ok(chains)
}

// The edges that enter the object, turned round, in ascending order. They are all in one chain.
pub(crate) fn entering_run(
    alloc: Global,
    edges: &[Edge],
    chains: &Chains,
    oid: Oid,
) -> Result<EdgeBuf, NoMemory>
    requires { AreChains child_of edges.now chains.now.heads.items chains.now.back.items }
    ensures { IfOk result (IsEnteringRun edges.now oid) }
{
    let mut run = EdgeBuf::new(alloc);
    if edges.is_empty() {
        return Ok(run);
    }
    let mut above = chains.heads[oid.0 as usize % chains.heads.len()];
    'chain: while above > 0 {
        let place = above - 1;
        push_entering(&mut run, &edges[place], oid)?;
        above = chains.back[place];
    }
    run.sort_set();
    Ok(run)
}

// Puts the edge behind those of `run`, turned round, if it enters the object.
fn push_entering(run: &mut EdgeBuf, edge: &Edge, oid: Oid) -> Result<(), NoMemory>
    ensures enters { OnOk result
        (edge.now.child ≡ oid → run.new ≡ run.old ++ turn In edge.now ∷ []) }
    ensures other { OnOk result (edge.now.child ≢ oid → run.new ≡ run.old) }
{
    if edge.child == oid {
        run.push(turned(Side::In, edge))?;
    }
    Ok(())
}
