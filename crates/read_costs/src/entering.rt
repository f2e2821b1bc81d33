ghost use Rattle.std.specs.Prelude.{◌≡◌, ◌+◌, sum_by, IfOk, OnOk};
ghost use Rattle.lore_base.specs.Databases.{AreAscendingEdges};
ghost use Rattle.read_costs.specs.ReadCosts.{in_reads};
ghost use Rattle.read_costs.specs.Entering.{AreEntering};

use index_traits::Links;
use lore_base::{EdgeBuf, NoMemory, Oid, Steps};
use std::alloc::Global;
use std::sync::ledger::Ledger;

/// The edges that enter these objects, in any order. Each object is read once.
pub fn entering_edges<K: Links, L: Ledger>(
    alloc: Global,
    links: &K,
    oids: &[Oid],
    steps: &mut Steps<L>,
) -> Result<EdgeBuf, NoMemory>
    ensures edges { IfOk result (λ edges. AreEntering (K.edges links.now) oids.now edges) }
    ensures steps { OnOk result (AreAscendingEdges (K.edges links.now) → steps.new
        ≡ steps.old + sum_by (in_reads (K.edges links.now)) oids.now) }
{
    let mut edges = EdgeBuf::new(alloc);
    'oids: for oid in oids {
        links.parents(*oid, None, &mut edges, steps)?;
    }
    Ok(edges)
}
