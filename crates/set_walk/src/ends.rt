ghost use Rattle.std.specs.Prelude.{◌≡◌, ◌↔◌, ◌⊎◌, Contains, IfOk, IfSome, OnOk, OnErr};
ghost use Rattle.lore_base.specs.Lists.{ExtendsBy};
ghost use Rattle.lore_base.specs.TargetSets.{ListsInOrder};
ghost use Rattle.path_expr.specs.Machines.{IsIn};
ghost use Rattle.set_walk.specs.Types.{Oid as TheOid, END};
ghost use Rattle.index_traits.specs.Counts.{IsCount};
ghost use Rattle.set_walk.specs.inside.SetWalks.{IsEnded, IsOnlyEnd};

use crate::set_graph::SetGraph;
use crate::state_marks::StateMarks;
use lore_base::{NoMemory, OidBuf};
use path_expr::END;
use std::alloc::Global;

// Appends the objects of the place's node, if it is met at the end.
fn push_ended<G: SetGraph>(
    graph: &G,
    place: (G::Node, StateMarks),
    ended: &mut OidBuf,
) -> Result<(), NoMemory>
    ensures { OnOk result ((oid : TheOid) → Contains ended.new oid ↔ (Contains ended.old oid
        ⊎ (IsIn (place.1).0 END × G.has graph.now place.0 oid))) }
{
    if !place.1.0.has(END) {
        return Ok(());
    }
    ended.append(graph.members(place.0))
}

// The objects of the nodes that are met at the end, ascending, each once.
fn union_of_ends<G: SetGraph>(
    alloc: Global,
    graph: &G,
    met: &[(G::Node, StateMarks)],
) -> Result<OidBuf, NoMemory>
    ensures { IfOk result (ListsInOrder (IsEnded (G.has graph.now) met.now)) }
{
    let mut ended = OidBuf::new(alloc);
    'places: for place in met {
        push_ended(graph, *place, &mut ended)?;
    }
    ended.sort_set();
    Ok(ended)
}

// The node that is met at the end, if it is the only one.
fn only_end<N: Copy>(met: &[(N, StateMarks)]) -> Option<N>
    ensures { IfSome result (IsOnlyEnd met.now) }
{
    let mut only = None;
    'places: for place in met {
        if place.1.0.has(END) {
            if only.is_some() {
                return None;
            }
            only = Some(place.0);
        }
    }
    only
}

// Appends the objects of the node, ascending, each once.
fn append_members<G: SetGraph>(graph: &G, node: G::Node, buf: &mut OidBuf) -> Result<(), NoMemory>
    ensures objects { OnOk result
        (ExtendsBy (ListsInOrder (G.has graph.now node)) buf.old buf.new) }
    ensures err { OnErr result (buf.new ≡ buf.old) }
{
    buf.append(graph.members(node))
}

// Appends the objects of the nodes that are met at the end, ascending, each once. Those of one
// node are in order already, and are copied once.
pub(crate) fn append_ended<G: SetGraph>(
    alloc: Global,
    graph: &G,
    met: &[(G::Node, StateMarks)],
    buf: &mut OidBuf,
) -> Result<(), NoMemory>
    ensures objects { OnOk result (ExtendsBy
        (ListsInOrder (IsEnded (G.has graph.now) met.now)) buf.old buf.new) }
    ensures err { OnErr result (buf.new ≡ buf.old) }
{
    match only_end(met) {
        Some(node) => append_members(graph, node, buf),
        None => {
            let ended = union_of_ends(alloc, graph, met)?;
            buf.append(ended.as_slice())
        }
    }
}

// The number of objects of the nodes that are met at the end, each counted once. Where one alone is
// met, none is copied.
pub(crate) fn count_ended<G: SetGraph>(
    alloc: Global,
    graph: &G,
    met: &[(G::Node, StateMarks)],
) -> Result<usize, NoMemory>
    ensures { IfOk result (IsCount (IsEnded (G.has graph.now) met.now)) }
{
    match only_end(met) {
        Some(node) => Ok(graph.members(node).len()),
        None => Ok(union_of_ends(alloc, graph, met)?.len()),
    }
}
