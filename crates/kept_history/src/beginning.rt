ghost use Rattle.std.specs.Prelude.{◌≡◌, [], ◌∷◌, IfOk, IfErr, OnOk};
ghost use Rattle.doem_history.specs.Moments.{IsFull};
ghost use Rattle.doem_history.specs.Histories.{moments_of};
ghost use Rattle.doem_history.specs.declared.faults.HistoryFault.TheVariants as fault;
ghost use Rattle.kept_history.specs.Kept.{present};

use crate::objects::all_objects;
use doem_history::{History, HistoryFault};
use lore_base::EdgeBuf;
use lore_store::Store;
use std::alloc::Global;

/// A history of the present moment alone, from the store and all its edges. `Full` only where the
/// moment weighs more than a history may.
pub fn begun(alloc: Global, store: &Store, edges: &EdgeBuf) -> Result<History, HistoryFault>
    requires edges { edges.now ≡ store.now.db.graph.edges }
    ensures ok { IfOk result (λ history. moments_of history ≡ present store.now.db ∷ []) }
    ensures light { OnOk result (¬ IsFull (present store.now.db ∷ [])) }
    ensures full { IfErr result (λ cause. cause ≡ fault.Full → IsFull (present store.now.db ∷ [])) }
{
    let graph = store.graph();
    let Ok(objects) = all_objects(alloc, graph) else {
        return Err(HistoryFault::NoMemory);
    };
    History::start(alloc, graph.names(), &objects, edges)
}
