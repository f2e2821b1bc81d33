ghost use Rattle.std.specs.Prelude.{◌≡◌, ◌↔◌, ◌++◌, map, Contains, IfOk, OnOk};
ghost use Rattle.oem_reach.specs.Types.{Oid as TheOid};
ghost use Rattle.oem_reach.specs.inside.Doubts.{IsParted};

use lore_base::{Changes, Edge, EdgeBuf, Names, NoMemory, OidBuf};

// Appends the children of the edges.
fn push_children(oids: &mut OidBuf, edges: &[Edge]) -> Result<(), NoMemory>
    ensures { OnOk result (oids.new ≡ oids.old ++ map (λ edge. edge.child) edges.now) }
{
    'edges: for edge in edges {
        oids.push(edge.child)?;
    }
    Ok(())
}

// The objects right below a cut, in any order, perhaps some more than once: the children of lost
// edges, and what names had that are bound anew or taken away.
pub(crate) fn parted_objects(
    names: &Names,
    lost: &EdgeBuf,
    changes: &Changes,
) -> Result<OidBuf, NoMemory>
    ensures { IfOk result (λ oids. (oid : TheOid) →
        Contains oids oid ↔ IsParted names.now lost.now changes.now oid) }
{
    let mut oids = names.renamed_objects(changes)?;
    push_children(&mut oids, lost.as_slice())?;
    Ok(oids)
}
