ghost use Rattle.std.specs.Prelude.{◌≡◌, ◌↔◌, ◌-◌, ◌≤◌, List, length, map, drop, All, IsTrue};
ghost use Rattle.std.specs.Prelude.{IfOk, OnOk, OnErr};
ghost use Rattle.lore_base.specs.Lists.{Extends, ExtendsBy};
ghost use Rattle.lore_base.specs.Paths.{step, seq, trees_of, path_tree, Reaches};
ghost use Rattle.lore_base.specs.TargetSets.{ListsInOrder};
ghost use Rattle.product_walk.specs.ProductWalks.{ReachesInto, IsWalked, WalksInto, reads_out};
ghost use Rattle.product_walk.specs.inside.Arcs.{reads_entering};
ghost use Rattle.product_walk.specs.inside.Ways.{IsLabel, IsLevel, TakesTimes};

use crate::direction::{Against, Along};
use crate::label_step::{LabelStep, in_order};
use index_traits::{Adjacent, Links};
use lore_base::{EdgeBuf, LabelTest, NoMemory, Oid, OidBuf, Path, Pattern, Steps};
use std::alloc::Global;
use std::sync::ledger::Ledger;

// Whether the path is one label.
fn is_label(path: &Path) -> bool
    ensures { IsTrue result ↔ IsLabel path.now }
{
    matches!(path, Path::Step(_))
}

// Whether each path is one label.
pub(crate) fn are_labels(paths: &[Path]) -> bool
    ensures { IsTrue result ↔ All IsLabel paths.now }
{
    'paths: for path in paths {
        if !is_label(path) {
            return false;
        }
    }
    true
}

// The pattern of a path that is one label.
fn label_of(path: &Path) -> &Pattern
    requires { IsLabel path.now }
    ensures { path_tree path.now ≡ step result.now }
{
    match path {
        Path::Step(pattern) => pattern,
        _ => unreachable!(),
    }
}

// The objects that all labels but the last lead to from the object, one after another, ascending,
// each once.
fn level_before_last<A: Adjacent, T: LabelTest, L: Ledger>(
    alloc: Global,
    graph: &A,
    labels: &T,
    paths: &[Path],
    from: Oid,
    edges: &mut EdgeBuf,
    steps: &mut Steps<L>,
) -> Result<OidBuf, NoMemory>
    requires labels { All IsLabel paths.now }
    requires two { 2 ≤ length paths.now }
    ensures level { let whole = seq (trees_of (map path_tree paths.now)) in
        let last = drop (length paths.now - 1) paths.now in
        IfOk result (IsLevel (T.texts labels.now) (A.edges graph.now) whole
        (seq (trees_of (map path_tree last))) from) }
    ensures steps { OnOk result (TakesTimes (length paths.now - 1) (reads_out (A.edges graph.now))
        (IsWalked (A.edges graph.now) from) steps.old steps.new) }
{
    let mut level = OidBuf::new(alloc);
    let first = LabelStep {
        direction: Along { graph },
        labels,
        pattern: label_of(&paths[0]),
    };
    first.append_ends(alloc, from, edges, &mut level, steps)?;
    'places: for place in 1..paths.len() - 1 {
        let step = LabelStep {
            direction: Along { graph },
            labels,
            pattern: label_of(&paths[place]),
        };
        level = step.ends_of(alloc, level.as_slice(), edges, steps)?;
    }
    Ok(level)
}

// Appends the objects that labels, one after another, lead to from the object, ascending, each once.
pub(crate) fn reach_in_turn<A: Adjacent, T: LabelTest, L: Ledger>(
    alloc: Global,
    graph: &A,
    labels: &T,
    paths: &[Path],
    from: Oid,
    edges: &mut EdgeBuf,
    buf: &mut OidBuf,
    steps: &mut Steps<L>,
) -> Result<(), NoMemory>
    requires labels { All IsLabel paths.now }
    requires two { 2 ≤ length paths.now }
    ensures objects { let path = seq (trees_of (map path_tree paths.now)) in
        let reaches = Reaches (T.texts labels.now) (A.edges graph.now) path from in
        OnOk result (ExtendsBy (ListsInOrder reaches) buf.old buf.new) }
    ensures steps { OnOk result (TakesTimes (length paths.now) (reads_out (A.edges graph.now))
        (IsWalked (A.edges graph.now) from) steps.old steps.new) }
    ensures err { OnErr result (Extends buf.old buf.new) }
{
    let level = level_before_last(alloc, graph, labels, paths, from, edges, steps)?;
    let last = LabelStep {
        direction: Along { graph },
        labels,
        pattern: label_of(&paths[paths.len() - 1]),
    };
    last.append_ends_of_level(alloc, level.as_slice(), edges, buf, steps)
}

// The objects from which labels, one after another, lead to one of the objects, ascending, each
// once.
pub(crate) fn reaching_in_turn<K: Links, T: LabelTest, L: Ledger>(
    alloc: Global,
    links: &K,
    labels: &T,
    paths: &[Path],
    to: &[Oid],
    steps: &mut Steps<L>,
) -> Result<OidBuf, NoMemory>
    requires { All IsLabel paths.now }
    ensures objects { let path = seq (trees_of (map path_tree paths.now)) in
        let reaches = ReachesInto (T.texts labels.now) (K.edges links.now) path to.now in
        IfOk result (ListsInOrder reaches) }
    ensures steps { OnOk result (TakesTimes (length paths.now)
        (reads_entering (K.edges links.now)) (WalksInto (K.edges links.now) to.now)
        steps.old steps.new) }
{
    let mut edges = EdgeBuf::new(alloc);
    let mut level = in_order(alloc, to)?;
    'taken: for taken in 0..paths.len() {
        let step = LabelStep {
            direction: Against { links },
            labels,
            pattern: label_of(&paths[paths.len() - 1 - taken]),
        };
        level = step.ends_of(alloc, level.as_slice(), &mut edges, steps)?;
    }
    Ok(level)
}
