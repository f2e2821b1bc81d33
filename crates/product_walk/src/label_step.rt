ghost use Rattle.std.specs.Prelude.{◌≡◌, ◌↔◌, ◌+◌, ◌<◌, ◌≤◌, length, take, drop, sum_by, AllPairs, Contains};
ghost use Rattle.std.specs.Prelude.{IsTrue, IfOk, OnOk, OnErr};
ghost use Rattle.lore_base.specs.Lists.{Extends, ExtendsBy};
ghost use Rattle.lore_base.specs.Paths.{Fits};
ghost use Rattle.lore_base.specs.TargetSets.{ListsInOrder};
ghost use Rattle.product_walk.specs.inside.Ways.{FromSome, GoesBy, IsFittingEnd, ExtendsByAll, TakesTimes};

use crate::direction::{Arcs, Direction};
use lore_base::{Edge, EdgeBuf, Label, LabelTest, NoMemory, Oid, OidBuf, Pattern, Steps};
use std::alloc::Global;
use std::sync::ledger::Ledger;

// One label to go on by: the arcs of a graph, read in one direction, whose label fits a pattern.
#[derive(Drop)]
pub(crate) struct LabelStep<'a, D, T> {
    pub(crate) direction: D,
    pub(crate) labels: &'a T,
    pub(crate) pattern: &'a Pattern,
}

impl<'a, D: Direction, T: LabelTest> LabelStep<'a, D, T> {
    // Appends the far ends of the object's arcs, in the order of its edges. These are put into
    // `edges`, whose room is used again.
    fn push_ends<L: Ledger>(
        &self,
        from: Oid,
        edges: &mut EdgeBuf,
        buf: &mut OidBuf,
        steps: &mut Steps<L>,
    ) -> Result<(), NoMemory>
        ensures ok { OnOk result (ExtendsByAll (GoesBy (T.texts self.now.labels.now)
            (D.goes (D.edges self.now.direction)) self.now.pattern.now from) buf.old buf.new) }
        ensures steps { OnOk result
            (steps.new ≡ steps.old + D.reads (D.edges self.now.direction) from) }
        ensures err { OnErr result (Extends buf.old buf.new) }
    {
        edges.cut(0);
        self.direction.read(from, edges, steps)?;
        push_fitting(
            &self.direction,
            self.labels,
            self.pattern,
            edges.as_slice(),
            buf,
        )
    }

    // Appends the far ends of the object's arcs, ascending, each once.
    pub(crate) fn append_ends<L: Ledger>(
        &self,
        alloc: Global,
        from: Oid,
        edges: &mut EdgeBuf,
        buf: &mut OidBuf,
        steps: &mut Steps<L>,
    ) -> Result<(), NoMemory>
        ensures objects { OnOk result (ExtendsBy (ListsInOrder (GoesBy
            (T.texts self.now.labels.now) (D.goes (D.edges self.now.direction))
            self.now.pattern.now from)) buf.old buf.new) }
        ensures steps { OnOk result
            (steps.new ≡ steps.old + D.reads (D.edges self.now.direction) from) }
        ensures err { OnErr result (Extends buf.old buf.new) }
    {
        let first = buf.len();
        self.push_ends(from, edges, buf, steps)?;
        put_in_order(alloc, buf, first)
    }

    // Appends the far ends of the objects' arcs, ascending, each once.
    pub(crate) fn append_ends_of_level<L: Ledger>(
        &self,
        alloc: Global,
        level: &[Oid],
        edges: &mut EdgeBuf,
        buf: &mut OidBuf,
        steps: &mut Steps<L>,
    ) -> Result<(), NoMemory>
        ensures objects { OnOk result (ExtendsBy (ListsInOrder (FromSome (GoesBy
            (T.texts self.now.labels.now) (D.goes (D.edges self.now.direction))
            self.now.pattern.now) level.now)) buf.old buf.new) }
        ensures steps { OnOk result (steps.new
            ≡ steps.old + sum_by (D.reads (D.edges self.now.direction)) level.now) }
        ensures err { OnErr result (Extends buf.old buf.new) }
    {
        let first = buf.len();
        'oids: for oid in level {
            self.push_ends(*oid, edges, buf, steps)?;
        }
        put_in_order(alloc, buf, first)
    }

    // The far ends of the objects' arcs, ascending, each once.
    pub(crate) fn ends_of<L: Ledger>(
        &self,
        alloc: Global,
        level: &[Oid],
        edges: &mut EdgeBuf,
        steps: &mut Steps<L>,
    ) -> Result<OidBuf, NoMemory>
        ensures objects { IfOk result (ListsInOrder (FromSome (GoesBy
            (T.texts self.now.labels.now) (D.goes (D.edges self.now.direction))
            self.now.pattern.now) level.now)) }
        ensures steps { OnOk result (steps.new
            ≡ steps.old + sum_by (D.reads (D.edges self.now.direction)) level.now) }
    {
        let mut next = OidBuf::new(alloc);
        self.append_ends_of_level(alloc, level, edges, &mut next, steps)?;
        Ok(next)
    }

    // Appends them for objects in any order, some perhaps more than once: each is read once.
    fn append_ends_of_all<L: Ledger>(
        &self,
        alloc: Global,
        oids: &[Oid],
        edges: &mut EdgeBuf,
        buf: &mut OidBuf,
        steps: &mut Steps<L>,
    ) -> Result<(), NoMemory>
        ensures objects { OnOk result (ExtendsBy (ListsInOrder (FromSome (GoesBy
            (T.texts self.now.labels.now) (D.goes (D.edges self.now.direction))
            self.now.pattern.now) oids.now)) buf.old buf.new) }
        ensures steps { OnOk result (TakesTimes 1 (D.reads (D.edges self.now.direction))
            (Contains oids.now) steps.old steps.new) }
        ensures err { OnErr result (Extends buf.old buf.new) }
    {
        let level = in_order(alloc, oids)?;
        self.append_ends_of_level(alloc, level.as_slice(), edges, buf, steps)
    }

    // The same; a single object is read in place.
    pub(crate) fn append_ends_of<L: Ledger>(
        &self,
        alloc: Global,
        oids: &[Oid],
        buf: &mut OidBuf,
        steps: &mut Steps<L>,
    ) -> Result<(), NoMemory>
        ensures objects { OnOk result (ExtendsBy (ListsInOrder (FromSome (GoesBy
            (T.texts self.now.labels.now) (D.goes (D.edges self.now.direction))
            self.now.pattern.now) oids.now)) buf.old buf.new) }
        ensures steps { OnOk result (TakesTimes 1 (D.reads (D.edges self.now.direction))
            (Contains oids.now) steps.old steps.new) }
        ensures err { OnErr result (Extends buf.old buf.new) }
    {
        let mut edges = EdgeBuf::new(alloc);
        match oids {
            [oid] => self.append_ends(alloc, *oid, &mut edges, buf, steps),
            _ => self.append_ends_of_all(alloc, oids, &mut edges, buf, steps),
        }
    }
}

// Whether a label fits a pattern.
#[derive(Clone, Copy)]
struct LabelFit {
    label: Label,
    fits: bool,
}

// Whether this label fits, which is told already if it was the last one.
fn fit_of<T: LabelTest>(labels: &T, pattern: &Pattern, label: Label, last: LabelFit) -> LabelFit
    requires { IsTrue last.fits ↔ Fits (T.texts labels.now) pattern.now last.label }
    ensures label { result.label ≡ label }
    ensures fits { IsTrue result.fits ↔ Fits (T.texts labels.now) pattern.now result.label }
{
    if last.label.0 == label.0 {
        return last;
    }
    LabelFit {
        label,
        fits: labels.matches(label, pattern),
    }
}

// Appends the object where the answer is yes.
fn push_if(buf: &mut OidBuf, oid: Oid, is: bool) -> Result<(), NoMemory>
    ensures ok { OnOk result (ExtendsByAll (λ other. (oid ≡ other) × IsTrue is) buf.old buf.new) }
    ensures err { OnErr result (buf.new ≡ buf.old) }
{
    if is { buf.push(oid) } else { Ok(()) }
}

// Appends the far ends of the edges whose label fits, in the order of the edges.
fn push_fitting<D: Arcs, T: LabelTest>(
    direction: &D,
    labels: &T,
    pattern: &Pattern,
    edges: &[Edge],
    buf: &mut OidBuf,
) -> Result<(), NoMemory>
    ensures ok { OnOk result (ExtendsByAll
        (IsFittingEnd D.far (T.texts labels.now) pattern.now edges.now) buf.old buf.new) }
    ensures err { OnErr result (Extends buf.old buf.new) }
{
    let Some(first) = edges.first() else {
        return Ok(());
    };
    let mut last = LabelFit {
        label: first.label,
        fits: labels.matches(first.label, pattern),
    };
    'edges: for edge in edges {
        last = fit_of(labels, pattern, edge.label, last);
        push_if(buf, direction.far_end(edge), last.fits)?;
    }
    Ok(())
}

// Whether each object has a greater number than the one before it.
fn ascends(oids: &[Oid]) -> bool
    ensures { IsTrue result ↔ AllPairs (λ a b. a.0 < b.0) oids.now }
{
    'places: for place in 1..oids.len() {
        if oids[place].0 <= oids[place - 1].0 {
            return false;
        }
    }
    true
}

// The objects from a place on.
fn tail_of(buf: &OidBuf, from: usize) -> &[Oid]
    requires { from ≤ length buf.now }
    ensures { result.now ≡ drop from buf.now }
{
    &buf.as_slice()[from..]
}

// Puts the objects from a place on into ascending order, each once.
fn make_set(alloc: Global, buf: &mut OidBuf, from: usize) -> Result<(), NoMemory>
    requires { from ≤ length buf.old }
    ensures ok { OnOk result (ExtendsBy (ListsInOrder (Contains (drop from buf.old)))
        (take from buf.old) buf.new) }
    ensures err { OnErr result (Extends (take from buf.old) buf.new) }
{
    let mut set = OidBuf::new(alloc);
    set.append(tail_of(buf, from))?;
    set.sort_set();
    buf.cut(from);
    buf.append(set.as_slice())
}

// The same where they are in order already, as mostly they are: then nothing is done.
fn put_in_order(alloc: Global, buf: &mut OidBuf, from: usize) -> Result<(), NoMemory>
    requires { from ≤ length buf.old }
    ensures ok { OnOk result (ExtendsBy (ListsInOrder (Contains (drop from buf.old)))
        (take from buf.old) buf.new) }
    ensures err { OnErr result (Extends (take from buf.old) buf.new) }
{
    if ascends(tail_of(buf, from)) {
        return Ok(());
    }
    make_set(alloc, buf, from)
}

// The objects ascending, each once.
pub(crate) fn in_order(alloc: Global, oids: &[Oid]) -> Result<OidBuf, NoMemory>
    ensures { IfOk result (ListsInOrder (Contains oids.now)) }
{
    let mut set = OidBuf::new(alloc);
    set.append(oids)?;
    put_in_order(alloc, &mut set, 0)?;
    Ok(set)
}
