ghost use Rattle.std.specs.Prelude.{◌≡◌, ◌↔◌, IsTrue, IfOk, IfErr, OnErr};
ghost use Rattle.lore_base.specs.Databases.{IsWellFormed, new_database};
ghost use Rattle.lore_base.specs.Verdicts.{IsToldBy};
ghost use Rattle.lorel_trees.specs.Trees.{restore};
ghost use Rattle.statements.specs.Statements.{Cause, cause_order, Dumps, Executes};
ghost use Rattle.statements.specs.Stops.{told};

use crate::changing::counts;
use crate::replies::Reply;
use crate::stops::Stop;
use dump_text::{dump, read_dump};
use index_traits::Adjacent;
use lore_base::limits::START_NODES;
use lore_base::{EdgeBuf, Mode, NoMemory, Refusal, Steps};
use lore_store::Store;
use lorel_trees::DumpTree;
use oem_graph::Graph;
use std::alloc::Global;
use std::sync::ledger::Ledger;

/// The dump as it is printed. A step is counted for each object and one for each edge.
pub(crate) fn dump_shown<L: Ledger>(
    alloc: Global,
    store: &Store,
    steps: &mut Steps<L>,
) -> Result<Reply, Stop>
    ensures ok { IfOk result (λ reply. Dumps store.now.db reply store.now.db) }
    ensures unrefused { IfErr result (λ stop. told stop ≡ None) }
{
    let graph = store.graph();
    let edges = all_edges(alloc, graph, steps)?;
    let (labels, nodes, mode) = (store.labels(), store.limit(), store.mode());
    Ok(Reply::Dump(dump(alloc, graph, &edges, labels, nodes, mode)?))
}

/// Fills the new database with what a dump text stands for. Refused are another database than
/// the new one, and a text that is the dump of no valid database: also one whose guide doesn't fit.
pub(crate) fn restore<L: Ledger>(
    alloc: Global,
    store: &mut Store,
    text: &DumpTree,
    steps: &mut Steps<L>,
) -> Result<Reply, Stop>
    ensures ok { IfOk result (λ reply. Executes store.old.db (restore text.now) reply store.new.db) }
    ensures same { OnErr result (store.new ≡ store.old) }
    ensures refused { IfErr result (λ stop.
        IsToldBy (Cause store.old.db (restore text.now)) cause_order (told stop)) }
{
    if !is_new(store) {
        return Err(Stop::Refused(Refusal::NotFresh));
    }
    let restored = read_dump(alloc, text)?;
    store.restore(alloc, &restored, steps)?;
    Ok(counts(store))
}

// Whether this is the new database.
fn is_new(store: &Store) -> bool
    ensures { IsTrue result ↔ store.now.db ≡ new_database }
{
    let graph = store.graph();
    let nothing = graph.names().len() == 0 && graph.objects() == 0 && graph.edges() == 0;
    let unset = store.limit() == START_NODES && store.mode() == Mode::Auto;
    nothing && unset && graph.next() == 1 && store.labels().len() == 0
}

/// All edges, in order: those that leave each object. A step is counted for each object and one for
/// each edge.
pub fn all_edges<L: Ledger>(
    alloc: Global,
    graph: &Graph,
    steps: &mut Steps<L>,
) -> Result<EdgeBuf, NoMemory>
    requires { IsWellFormed graph.now.graph }
    ensures { IfOk result (λ edges. edges ≡ graph.now.graph.edges) }
{
    let mut edges = EdgeBuf::with_capacity(alloc, graph.edges() as usize)?;
    'objects: for place in 0..graph.objects() {
        let Some(oid) = graph.object(place) else {
            unreachable!();
        };
        graph.out_edges(oid, &mut edges, steps)?;
    }
    Ok(edges)
}
