ghost use Rattle.std.specs.Prelude.{◌≡◌, ◌<◌, ◌≤◌};
ghost use Rattle.lorel_bound.specs.Bound.{bound_cond};
ghost use Rattle.lorel_bound.specs.Conditions.{paths_of};
ghost use Rattle.lorel_eval.specs.Types.{LEAVES};
ghost use Rattle.lorel_eval.specs.Tests.{rest_leaves};

use index_traits::{NaiveEdges, Row, RowTest, ValueOf};
use lore_base::{Edge, EdgeBuf, Label, NoMemory, Oid, Op, Path, Steps, Value};
use lorel_bound::{BoundCond, BoundOperand, BoundPath, BoundStart};
use lorel_eval::Test;
use oem_labels::LabelTable;
use std::alloc::Global;
use std::marker::Brand;
use std::sync::ledger::{Blank, Ledger};
use std::test::Fail;

// The value of the object 2, which is the only one.
#[derive(Drop)]
struct One {
    value: Value,
}

impl ValueOf for One {
    ghost use Rattle.std.specs.Prelude.{◌∷◌, []};
    ghost use Rattle.lore_base.specs.Walks.{oid_of};

    ghost objects = { λ one. (oid_of 2, one.value) ∷ [] };

    fn value_of(&self, oid: Oid) -> Option<&Value> {
        if oid.0 == 2 { Some(&self.value) } else { None }
    }
}

// The condition that some word leads from the object in the first slot to this number.
pub(crate) fn leading_to(number: i64) -> BoundCond
    ensures { rest_leaves (paths_of (bound_cond result)) ≤ LEAVES }
{
    let path = BoundPath {
        start: BoundStart::Slot(0),
        rest: Path::Any,
    };
    BoundCond::Compare {
        left: BoundOperand::At(path),
        op: Op::Eq,
        right: BoundOperand::Atom(Value::Whole(number)),
    }
}

// What a condition is asked of. It is made once and lent: what a function owns is proved to be let
// go at each of its ways out.
#[derive(Drop)]
struct Scene {
    graph: NaiveEdges,
    values: One,
    labels: LabelTable,
    row: Row,
}

// 1 leads to 2.
fn graph(alloc: Global) -> Result<NaiveEdges, NoMemory> {
    let mut edges = EdgeBuf::new(alloc);
    edges.push(Edge {
        parent: Oid(1),
        label: Label(0),
        child: Oid(2),
    })?;
    edges.sort_set();
    Ok(NaiveEdges::new(edges))
}

fn row(alloc: Global) -> Row {
    let mut row = Row::new(alloc);
    row.set(0, Oid(1));
    row
}

// A word leads from the object 1, in the row's first slot, to 2, which is the number 30.
fn edge_scene(alloc: Global) -> Result<Scene, NoMemory> {
    let graph = graph(alloc)?;
    Ok(Scene {
        graph,
        values: One {
            value: Value::Whole(30),
        },
        labels: LabelTable::new(alloc),
        row: row(alloc),
    })
}

// Whether the test holds of the row. A test is taken as a parameter's type: the facts of a call and
// of a drop are few there.
fn passes<T: RowTest + Drop, L: Ledger>(
    alloc: Global,
    test: T,
    row: &Row,
    steps: &mut Steps<L>,
) -> Result<bool, NoMemory> {
    let answer = test.holds(alloc, row, steps);
    drop(test);
    answer
}

fn holds_in<L: Ledger>(
    alloc: Global,
    cond: &BoundCond,
    scene: &Scene,
    steps: &mut Steps<L>,
) -> Result<bool, NoMemory>
    requires { rest_leaves (paths_of (bound_cond cond.now)) ≤ LEAVES }
{
    let test = Test::new(Some(cond), &scene.graph, &scene.values, &scene.labels);
    passes(alloc, test, &scene.row, steps)
}

// Whether a word leads from the object 1 to this number.
fn holds<L: Ledger>(
    alloc: Global,
    number: i64,
    scene: &Scene,
    steps: &mut Steps<L>,
) -> Result<bool, NoMemory> {
    let cond = leading_to(number);
    let answer = holds_in(alloc, &cond, scene, steps);
    drop(cond);
    answer
}

const TESTED: [(i64, bool); 2] = [(30, true), (31, false)];

// A condition is tested whose paths aren't made ready.
fn check_tested<L: Ledger>(
    alloc: Global,
    scene: &Scene,
    table: &[(i64, bool)],
    steps: &mut Steps<L>,
) -> Result<(), Fail> {
    for (number, wanted) in table {
        if holds(alloc, *number, scene, steps)? != *wanted {
            return Err(Fail::new("a condition holds otherwise"));
        }
    }
    Ok(())
}

// Whether the test rules out the row, of which the first slot is known or no slot is.
fn rules_out<T: RowTest, L: Ledger>(
    alloc: Global,
    test: &T,
    is_known: bool,
    row: &Row,
    steps: &mut Steps<L>,
) -> Result<bool, NoMemory> {
    let mut slots = [false; 8];
    slots[0] = is_known;
    test.rules_out(alloc, &slots, row, steps)
}

fn tells<T: RowTest + Drop, L: Ledger>(
    alloc: Global,
    test: Result<T, NoMemory>,
    is_known: bool,
    row: &Row,
    steps: &mut Steps<L>,
) -> Result<bool, NoMemory> {
    let test = test?;
    let answer = rules_out(alloc, &test, is_known, row, steps);
    drop(test);
    answer
}

fn is_ruled_out_in<L: Ledger>(
    alloc: Global,
    cond: &BoundCond,
    is_known: bool,
    scene: &Scene,
    steps: &mut Steps<L>,
) -> Result<bool, NoMemory>
    requires { rest_leaves (paths_of (bound_cond cond.now)) ≤ LEAVES }
{
    let (graph, values, labels) = (&scene.graph, &scene.values, &scene.labels);
    let test = Test::ready(alloc, Some(cond), graph, values, labels);
    tells(alloc, test, is_known, &scene.row, steps)
}

// Whether it is told that no word leads from the object 1 to this number, where the slot of the
// object is known, or isn't.
fn is_ruled_out<L: Ledger>(
    alloc: Global,
    (number, is_known): (i64, bool),
    scene: &Scene,
    steps: &mut Steps<L>,
) -> Result<bool, NoMemory> {
    let cond = leading_to(number);
    let answer = is_ruled_out_in(alloc, &cond, is_known, scene, steps);
    drop(cond);
    answer
}

const TOLD: [((i64, bool), bool); 3] = [
    ((31, true), true),
    ((30, true), false),
    ((31, false), false),
];

// A condition is told by known slots.
fn check_told<L: Ledger>(
    alloc: Global,
    scene: &Scene,
    table: &[((i64, bool), bool)],
    steps: &mut Steps<L>,
) -> Result<(), Fail> {
    for (asked, wanted) in table {
        if is_ruled_out(alloc, *asked, scene, steps)? != *wanted {
            return Err(Fail::new("a row is ruled out otherwise"));
        }
    }
    Ok(())
}

// A test that no row passes.
#[derive(Drop)]
struct Never {}

impl RowTest for Never {
    ghost passes = { λ test row. ⊥ };

    fn holds<L: Ledger>(
        &self,
        _alloc: Global,
        _row: &Row,
        _steps: &mut Steps<L>,
    ) -> Result<bool, NoMemory> {
        Ok(false)
    }
}

fn is_none<T: Drop>(found: Result<Option<T>, NoMemory>) -> Result<bool, NoMemory> {
    let found = found?;
    let is_none = found.is_none();
    drop(found);
    Ok(is_none)
}

// Whether a test tells nothing of rows of which some slots are filled.
fn is_silent<T: RowTest, L: Ledger>(
    alloc: Global,
    test: &T,
    row: &Row,
    steps: &mut Steps<L>,
) -> Result<bool, NoMemory> {
    let filled = [true; 8];
    if test.rules_out(alloc, &filled, row, steps)? {
        return Ok(false);
    }
    is_none(test.fitting(alloc, &filled, 0, row, steps))
}

// A test tells nothing of part of a row by itself.
fn check_silent<L: Ledger>(alloc: Global, row: &Row, steps: &mut Steps<L>) -> Result<(), Fail> {
    if is_silent(alloc, &Never {}, row, steps)? {
        Ok(())
    } else {
        Err(Fail::new("a test tells something"))
    }
}

fn check_in<L: Ledger>(alloc: Global, scene: &Scene, steps: &mut Steps<L>) -> Result<(), Fail> {
    check_tested(alloc, scene, &TESTED, steps)?;
    check_told(alloc, scene, &TOLD, steps)?;
    check_silent(alloc, &scene.row, steps)
}

fn check<L: Ledger>(alloc: Global, blank: Blank) -> Result<(), Fail>
    requires name { blank.name ≡ L.name }
    requires parts { blank.parts ≡ L.parts }
    requires some { 0 < blank.parts }
{
    let scene = edge_scene(alloc)?;
    let checked = check_in(alloc, &scene, &mut Steps::<L>::new(blank));
    drop(scene);
    checked
}

#[test]
fn a_condition_is_asked_of_a_row(rt: HostRuntime) -> Result<(), Fail> {
    check::<Brand>(rt.alloc(), Blank::new(1))
}
