ghost use Rattle.std.specs.Prelude.{◌≡◌, ◌+◌, ◌<◌, ◌≤◌, length, IsTrue, IsOk, IfOk};
ghost use Rattle.read_costs.specs.ReadCosts.{in_of};
ghost use Rattle.session_tests.specs.Given.{giving};

use crate::executing::is_accepted;
use index_traits::Links;
use lore_base::{Changes, EdgeBuf, NoMemory, Oid, Steps, Value};
use lore_db::Db;
use lore_store::{Prepared, Store, StoreFault};
use std::alloc::Global;
use std::marker::Brand;
use std::sync::ledger::{Blank, Ledger};
use std::test::Fail;

// The age of the fifth generated person, and the number that it is given.
const AGE: Oid = Oid(21);

const GIVEN: i64 = 30;

// Whether at most one edge enters the object.
fn is_entered_once<L: Ledger>(
    alloc: Global,
    store: &Store,
    oid: Oid,
    steps: &mut Steps<L>,
) -> Result<bool, NoMemory>
    ensures { IfOk result (λ told. IsTrue told → length (in_of oid store.now.db.graph.edges) ≤ 1) }
{
    let _valid = store.graph();
    let mut edges = EdgeBuf::new(alloc);
    store.links().parents(oid, None, &mut edges, steps)?;
    Ok(edges.len() <= 1)
}

// The changes that only give the object the number.
fn given(alloc: Global, oid: Oid, number: i64) -> Result<Changes, NoMemory>
    ensures { IfOk result (λ changes. changes ≡ giving oid number) }
{
    let mut changes = Changes::new(alloc);
    changes.values.push((oid, Value::Whole(number)))?;
    Ok(changes)
}

// Whether it was prepared that the object has the number, and no more.
fn gives(prepared: Result<Prepared, StoreFault>, oid: Oid, number: i64) -> bool
    ensures { IsTrue result → IsOk prepared }
{
    match prepared {
        Ok(plan) => {
            let come = plan.delta().objects_come.as_slice();
            matches!(come, [(other, Value::Whole(value))] if *other == oid && *value == number)
        }
        Err(_) => false,
    }
}

// Prepares to give a number to an object, which at most one edge enters and none leaves. No program
// can look at the counter, so that what is read is told by the clause alone.
fn prepares<L: Ledger>(
    alloc: Global,
    store: &Store,
    oid: Oid,
    number: i64,
    steps: &mut Steps<L>,
) -> Result<bool, NoMemory>
    requires once { length (in_of oid store.now.db.graph.edges) ≤ 1 }
    ensures few { IfOk result (λ done. IsTrue done → steps.new ≤ steps.old + 8) }
{
    let graph = store.graph();
    let Some(_value) = graph.value(oid) else {
        return Ok(false);
    };
    if graph.has_edge(oid) {
        return Ok(false);
    }
    let changes = given(alloc, oid, number)?;
    let prepared = store.prepare(alloc, &changes, steps);
    drop(changes);
    Ok(gives(prepared, oid, number))
}

// Prepares to change an age, which has one owner.
fn prepares_age<L: Ledger>(
    alloc: Global,
    store: &Store,
    steps: &mut Steps<L>,
) -> Result<bool, NoMemory> {
    if !is_entered_once(alloc, store, AGE, steps)? {
        return Ok(false);
    }
    prepares(alloc, store, AGE, GIVEN, steps)
}

// The same among a thousand generated persons.
fn prepares_among_many<L: Ledger>(
    alloc: Global,
    db: &mut Db,
    steps: &mut Steps<L>,
) -> Result<bool, NoMemory> {
    if !is_accepted(alloc, b"generate 7 1000", db, steps) {
        return Err(NoMemory);
    }
    prepares_age(alloc, db.store(), steps)
}

// The same, with a new database.
fn prepares_in_new<L: Ledger>(alloc: Global, blank: Blank) -> Result<bool, NoMemory>
    requires name { blank.name ≡ L.name }
    requires parts { blank.parts ≡ L.parts }
    requires some { 0 < blank.parts }
{
    let mut db = Db::new(alloc)?;
    let done = prepares_among_many(alloc, &mut db, &mut Steps::<L>::new(blank));
    drop(db);
    done
}

// A value among thousands is changed with at most eight steps.
#[test]
fn a_value_is_given_in_a_few_reads(rt: HostRuntime) -> Result<(), Fail> {
    if prepares_in_new::<Brand>(rt.alloc(), Blank::new(1))? {
        Ok(())
    } else {
        Err(Fail::new("the change isn't prepared"))
    }
}
