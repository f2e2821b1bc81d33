ghost use Rattle.std.specs.Prelude.{◌≡◌, ◌≤◌, ◌≢◌, [], IfOk, OnOk};
ghost use Rattle.index_traits.specs.Entries.{IsProbed};
ghost use Rattle.lore_base.specs.Paths.{path_tree, leaves, Reaches};
ghost use Rattle.lore_base.specs.TargetSets.{ListsInOrder};
ghost use Rattle.lorel_bound.specs.Plans.{IsCandidate};
ghost use Rattle.product_walk.specs.ProductWalks.{ReachesInto};
ghost use Rattle.plan_ops.specs.Types.{Complex, LEAVES};
ghost use Rattle.word_walks.specs.WordWalks.{IsReachedBy};
ghost use Rattle.plan_ops.specs.inside.Keeping.{IsKept};
ghost use Rattle.plan_ops.specs.inside.Offers.{PutsThose};

use crate::kept::{Kept, walked};
use crate::offers::Offer;
use crate::walks::{RouteWalk, WordWalk};
use index_traits::{Adjacent, Links, Paths, Values};
use lore_base::{Label, LabelTest, NoMemory, Oid, OidBuf, Op, Path, Steps, Value};
use product_walk::{Route, WayBack};
use std::alloc::Global;
use std::sync::ledger::Ledger;
use word_walks::OnlyWord;

/// Puts the objects into the slot that the word reaches from the object.
pub(crate) fn along_word<'r, A: Adjacent, L: Ledger>(
    alloc: Global,
    graph: &A,
    word: &OnlyWord,
    from: Oid,
    slot: u32,
    kept: &mut Kept,
    steps: &mut Steps<L>,
) -> Result<Offer<'r>, NoMemory>
    requires { IsKept (IsReachedBy word.now (A.edges graph.now)) kept.old }
    ensures kept { IsKept (IsReachedBy word.now (A.edges graph.now)) kept.new }
    ensures objects { IfOk result (PutsThose (IsReachedBy word.now (A.edges graph.now) from) slot) }
{
    let walk = WordWalk { graph, word };
    walked(alloc, &walk, from, slot, kept, steps)
}

/// Puts the objects into the slot that the path reaches from the object.
pub(crate) fn along_route<'r, A: Adjacent, T: LabelTest, L: Ledger>(
    alloc: Global,
    graph: &A,
    labels: &T,
    route: &Route<'_>,
    from: Oid,
    slot: u32,
    kept: &mut Kept,
    steps: &mut Steps<L>,
) -> Result<Offer<'r>, NoMemory>
    requires { IsKept (Reaches (T.texts labels.now) (A.edges graph.now) (path_tree route.now))
        kept.old }
    ensures kept { IsKept (Reaches (T.texts labels.now) (A.edges graph.now) (path_tree route.now))
        kept.new }
    ensures objects { IfOk result (PutsThose
        (Reaches (T.texts labels.now) (A.edges graph.now) (path_tree route.now) from) slot) }
{
    let walk = RouteWalk {
        graph,
        labels,
        route,
    };
    walked(alloc, &walk, from, slot, kept, steps)
}

/// The objects that the paths reach from the named object, ascending, each once.
pub(crate) fn selected<P: Paths>(
    alloc: Global,
    paths: &P,
    path: &Path,
    named: Oid,
) -> Result<OidBuf, NoMemory>
    requires { leaves (path_tree path.now) ≤ LEAVES }
    ensures { IfOk result (ListsInOrder (P.reaches paths.now (path_tree path.now) named)) }
{
    let mut oids = OidBuf::new(alloc);
    paths.select(alloc, path, named, &mut oids)?;
    Ok(oids)
}

/// The objects that have such a value, ascending, each once.
pub(crate) fn candidates<V: Values>(
    alloc: Global,
    values: &V,
    label: Option<Label>,
    op: Op,
    value: &Value,
) -> Result<OidBuf, NoMemory>
    requires op { IsProbed op }
    requires value { value.now ≢ Complex }
    ensures { IfOk result (ListsInOrder (IsCandidate (V.entries values.now) label op value.now)) }
{
    let mut oids = OidBuf::new(alloc);
    if let Some(label) = label {
        values.probe(label, op, value, &mut oids)?;
    }
    Ok(oids)
}

/// The objects from which the path reaches one of these, ascending, each once. No step is counted
/// where there is none of these.
pub(crate) fn leading_to_some<K: Links, T: LabelTest, L: Ledger>(
    alloc: Global,
    links: &K,
    labels: &T,
    way: &WayBack<'_>,
    to: &OidBuf,
    steps: &mut Steps<L>,
) -> Result<OidBuf, NoMemory>
    ensures oids { IfOk result (ListsInOrder (ReachesInto
        (T.texts labels.now) (K.edges links.now) (path_tree way.now) to.now)) }
    ensures quiet { to.now ≡ [] → OnOk result (steps.new ≡ steps.old) }
{
    let mut oids = OidBuf::new(alloc);
    if to.is_empty() {
        return Ok(oids);
    }
    way.reach_back(alloc, links, labels, to, &mut oids, steps)?;
    Ok(oids)
}

/// The objects from which the path reaches this one, ascending, each once.
pub(crate) fn leading_to<K: Links, T: LabelTest, L: Ledger>(
    alloc: Global,
    links: &K,
    labels: &T,
    way: &WayBack<'_>,
    to: Oid,
    steps: &mut Steps<L>,
) -> Result<OidBuf, NoMemory>
    ensures { IfOk result (ListsInOrder (λ from.
        Reaches (T.texts labels.now) (K.edges links.now) (path_tree way.now) from to)) }
{
    let mut ends = OidBuf::new(alloc);
    ends.push(to)?;
    leading_to_some(alloc, links, labels, way, &ends, steps)
}
