ghost use Rattle.std.specs.Prelude.{IfOk, IfErr, OnOk};
ghost use Rattle.lore_base.specs.Databases.{IsRooted};
ghost use Rattle.lore_base.specs.ChangeSets.{AreSame};
ghost use Rattle.lore_base.specs.Verdicts.{IsClear, IsToldBy};
ghost use Rattle.lorel_trees.specs.Trees.{statement_tree};
ghost use Rattle.updates.specs.Effects.{changes_by};
ghost use Rattle.updates.specs.Causes.{IsUpdate, HasTargets, UpdateCause, update_order};
ghost use Rattle.updates.specs.Faults.{refusal_of};

use crate::assignments::assign;
use crate::copies::{add_copies, no_change};
use crate::faults::UpdateFault;
use crate::links::{link, unlink};
use lore_base::{Changes, Listing, Oid};
use lorel_trees::Statement;
use oem_graph::Graph;
use oem_labels::LabelTable;
use std::alloc::Global;

/// The rows of an update: each has an object of its target and, where the update has a path on its
/// right side, one of that.
pub type PairList = Listing<(Oid, Option<Oid>)>;

/// What an update changes, one of the four forms, over its rows. Edges are listed in any order,
/// perhaps some more than once.
///
/// Refused are, in this order, a literal whose locals aren't sound (`DuplicateLocal`,
/// `UndefinedLocal`), an edge that would leave an atomic object (`AtomicParent`), an atomic value for
/// an object that an edge leaves (`HasChildren`), numbers past the greatest one (`OidsSpent`), more
/// labels than a table holds (`TooManyLabels`), and, before copies of a literal are made, more
/// objects or edges than a database holds (`TooManyObjects`, `TooManyEdges`).
pub fn changes_of(
    alloc: Global,
    statement: &Statement,
    rows: &PairList,
    graph: &Graph,
    labels: &LabelTable,
) -> Result<Changes, UpdateFault>
    requires update { IsUpdate (statement_tree statement.now) }
    requires rooted { IsRooted graph.now.graph }
    requires rows { HasTargets graph.now.graph rows.now }
    ensures same { let all = changes_by labels.now graph.now.graph (statement_tree statement.now) rows.now in
        IfOk result (AreSame all) }
    ensures ok { let tree = statement_tree statement.now in
        OnOk result (IsClear (UpdateCause labels.now graph.now.graph tree rows.now)
        (update_order tree)) }
    ensures err { let tree = statement_tree statement.now in
        IfErr result (λ fault. IsToldBy (UpdateCause labels.now graph.now.graph tree rows.now)
        (update_order tree) (refusal_of fault)) }
{
    if let Statement::AddNew { label, literal, .. } = statement {
        return add_copies(alloc, label, literal, rows, graph, labels);
    }
    if rows.is_empty() {
        return no_change(alloc, graph, labels);
    }
    match statement {
        Statement::Assign { value, .. } => assign(alloc, value, rows, graph, labels),
        Statement::AddLink { label, .. } => link(alloc, label, rows, graph, labels),
        Statement::Remove { label, .. } => unlink(alloc, label, rows, graph, labels),
        _ => unreachable!(),
    }
}
