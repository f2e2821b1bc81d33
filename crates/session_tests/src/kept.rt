ghost use Rattle.std.specs.Prelude.{◌≡◌, ◌<◌, ◌≤◌};

use crate::executing::{execute, is_accepted};
use lore_base::{Label, NoMemory, OemText, Oid, Steps, Value};
use lore_db::Db;
use one_index::Blocks;
use std::alloc::Global;
use std::marker::Brand;
use std::sync::ledger::{Blank, Ledger};
use std::test::Fail;

// Statements that are all accepted, of each form that changes a database, with a ring in it, and
// some that ask. A view is kept, and a history of the last changes, which concern the view; blocks
// are asked for before a change and behind the last one.
const STATEMENTS: [&[u8]; 26] = [
    b"restore oem 2 next 1 nodes 4096 plan auto end",
    b"load A := &1 { b 1, c &2 { back &1, b \"x\" }, c { b 2 } }",
    b"name B := A.c.back",
    b"update A.b := 3 where A.c.b = \"x\"",
    b"update A.c.b := {}",
    b"update A.c.d += &1 { e true, back &1 }",
    b"update X.f += A from A.c X",
    b"select path-of(P), X.f from A.#@P X where exists Y in X.d : Y.e = true",
    b"update A.c.f -= A",
    b"explain select A.c.d.e",
    b"guide",
    b"blocks select A.c.d.e",
    b"generate 1 20",
    b"update People.club.member -= People.person",
    b"set nodes 1000",
    b"unname People",
    b"set plan top",
    b"watch V := select A.b where A.b < 9",
    b"history on",
    b"update A.b := 4",
    b"update A.g += \"new\"",
    b"at 1 select A.b, A.c.f",
    b"changes 0 2",
    b"blocks",
    b"blocks select A.#.back",
    b"show V",
];

// What differs between the first moment of a history and the last one, where it has so many more.
const CHANGES: [&[u8]; 3] = [b"changes 0 0", b"changes 0 1", b"changes 0 2"];

// The dump behind them: both members of `A` have a copy with a ring, and all persons vanished.
// Behind it stands what the history tells, that blocks are kept, and whether the view is fresh.
const DUMPED: &[u8] = b"oem 2
next 203
nodes 1000
plan top
label b
label c
label back
label d
label e
label f
label person
label id
label name
label age
label boss
label club
label member
label leader
label ring
label next
label g
name A &1
name B &1
object &1 {}
object &2 4
object &3 {}
object &4 {}
object &5 {}
object &6 {}
object &7 {}
object &8 true
object &9 {}
object &10 true
object &202 \"new\"
edge &1 b &2
edge &1 c &3
edge &1 c &5
edge &1 g &202
edge &3 b &4
edge &3 back &1
edge &3 d &7
edge &5 b &6
edge &5 d &9
edge &7 back &7
edge &7 e &8
edge &9 back &9
edge &9 e &10
end
- object &2 3
+ object &2 4
+ object &202 \"new\"
+ edge &1 g &202
changes 4
blocks are kept
V is fresh
";

// How many blocks there are then: both members are alike, and so is what they lead to.
const BLOCKS: u32 = 7;

// Each call that tells something of a database stands in a function of its own without a clause, so
// that no function carries what several of them tell.

// The statement that tells what the history that is kept has.
fn telling(db: &Db) -> Option<&'static [u8]> {
    match db.history() {
        Some(history) => CHANGES.get(history.last() as usize).copied(),
        None => None,
    }
}

// What the history tells, where one is kept.
fn put_changes<L: Ledger>(
    alloc: Global,
    db: &mut Db,
    steps: &mut Steps<L>,
    dump: &mut Vec<u8>,
) -> Result<(), NoMemory> {
    match telling(db) {
        Some(text) => execute(alloc, text, db, steps, dump),
        None => Ok(()),
    }
}

// Whether blocks are kept.
fn put_blocks(db: &Db, dump: &mut Vec<u8>) -> Result<(), NoMemory> {
    if db.blocks().is_some() {
        dump.extend_from_slice(b"blocks are kept\n")?;
    }
    Ok(())
}

fn is_fresh(alloc: Global, db: &Db) -> Result<bool, NoMemory> {
    let name = OemText::from_bytes(alloc, b"V")?;
    let is_fresh = db.views().rows(&name).is_some();
    drop(name);
    Ok(is_fresh)
}

// Whether the view has its rows.
fn put_view(alloc: Global, db: &Db, dump: &mut Vec<u8>) -> Result<(), NoMemory> {
    if is_fresh(alloc, db)? {
        dump.extend_from_slice(b"V is fresh\n")?;
    } else {
        dump.extend_from_slice(b"V isn't fresh\n")?;
    }
    Ok(())
}

fn put_all<L: Ledger>(
    alloc: Global,
    db: &mut Db,
    steps: &mut Steps<L>,
    dump: &mut Vec<u8>,
) -> Result<(), NoMemory> {
    execute(alloc, b"dump", db, steps, dump)?;
    put_changes(alloc, db, steps, dump)?;
    put_blocks(db, dump)?;
    put_view(alloc, db, dump)
}

fn dumped_once<L: Ledger>(
    alloc: Global,
    db: &mut Db,
    steps: &mut Steps<L>,
) -> Result<Vec<u8>, NoMemory> {
    let mut dump = Vec::new(alloc);
    put_all(alloc, db, steps, &mut dump)?;
    Ok(dump)
}

// The dump of the database, what its history tells, whether blocks are kept, and whether the view
// is fresh, in a second try where memory was refused in the first.
fn dumped<L: Ledger>(
    alloc: Global,
    db: &mut Db,
    steps: &mut Steps<L>,
) -> Result<Vec<u8>, NoMemory> {
    match dumped_once(alloc, db, steps) {
        Ok(bytes) => Ok(bytes),
        Err(_) => dumped_once(alloc, db, steps),
    }
}

fn is_still<L: Ledger>(
    alloc: Global,
    before: &[u8],
    db: &mut Db,
    steps: &mut Steps<L>,
) -> Result<bool, NoMemory> {
    let after = dumped(alloc, db, steps)?;
    let is_still = before == after.as_slice();
    drop(after);
    Ok(is_still)
}

// Executes a statement. Where memory was refused, the database and what is kept of it have to be
// what they were; then the statement is executed again.
fn executed_behind<L: Ledger>(
    alloc: Global,
    before: &[u8],
    text: &[u8],
    db: &mut Db,
    steps: &mut Steps<L>,
) -> Result<(), Fail> {
    if is_accepted(alloc, text, db, steps) {
        return Ok(());
    }
    if !is_still(alloc, before, db, steps)? {
        return Err(Fail::new("a statement without memory changed something"));
    }
    if is_accepted(alloc, text, db, steps) {
        Ok(())
    } else {
        Err(Fail::new("a statement is refused"))
    }
}

fn executed<L: Ledger>(
    alloc: Global,
    text: &[u8],
    db: &mut Db,
    steps: &mut Steps<L>,
) -> Result<(), Fail> {
    let before = dumped(alloc, db, steps)?;
    let executed = executed_behind(alloc, before.as_slice(), text, db, steps);
    drop(before);
    executed
}

// The table is lent, so that what its texts are is no fact of the loop.
fn execute_each<L: Ledger>(
    alloc: Global,
    texts: &[&[u8]],
    db: &mut Db,
    steps: &mut Steps<L>,
) -> Result<(), Fail> {
    for text in texts {
        executed(alloc, text, db, steps)?;
    }
    Ok(())
}

fn database(alloc: Global) -> Result<Db, NoMemory> {
    match Db::new(alloc) {
        Ok(db) => Ok(db),
        Err(_) => Db::new(alloc),
    }
}

// Whether the history tells this number of the object.
fn was(db: &Db, moment: u32, oid: Oid, number: i64) -> bool {
    matches!(db.past_value(moment, oid), Some(Value::Whole(value)) if *value == number)
}

// Whether it tells any value.
fn was_there(db: &Db, moment: u32, oid: Oid) -> bool {
    db.past_value(moment, oid).is_some()
}

// Whether the value that was changed is told of each moment, and nothing of what wasn't there.
fn tells_values(db: &Db) -> bool {
    was(db, 0, Oid(2), 3)
        && was(db, 1, Oid(2), 4)
        && !was_there(db, 1, Oid(202))
        && was_there(db, 2, Oid(202))
        && !was_there(db, 3, Oid(2))
}

fn block_of(blocks: &Blocks, oid: Oid) -> Option<u32> {
    blocks.block_of(oid)
}

fn has_members(blocks: &Blocks, block: u32) -> bool {
    blocks.members(block).is_some()
}

fn out(blocks: &Blocks, block: u32, place: u32) -> Option<(Label, u32)> {
    blocks.out(block, place)
}

// Whether the third block has both members of `A`, and its second edge leads back to their parent.
fn tells_members(blocks: &Blocks) -> bool {
    matches!(block_of(blocks, Oid(5)), Some(2))
        && block_of(blocks, Oid(11)).is_none()
        && has_members(blocks, 2)
        && !has_members(blocks, BLOCKS)
        && matches!(out(blocks, 2, 1), Some((Label(2), 0)))
        && out(blocks, 2, 3).is_none()
}

// Whether so many blocks are kept, and tell this.
fn tells_blocks(db: &Db) -> bool {
    match db.blocks() {
        Some(blocks) => blocks.len() == BLOCKS && tells_members(blocks),
        None => false,
    }
}

fn check_told(db: &Db) -> Result<(), Fail> {
    if !tells_values(db) {
        return Err(Fail::new("the history tells other values"));
    }
    if !tells_blocks(db) {
        return Err(Fail::new("there are other blocks"));
    }
    Ok(())
}

// Executes all statements, and gives the dump behind them.
fn all_executed<L: Ledger>(
    alloc: Global,
    db: &mut Db,
    steps: &mut Steps<L>,
) -> Result<Vec<u8>, Fail> {
    execute_each(alloc, &STATEMENTS, db, steps)?;
    check_told(db)?;
    Ok(dumped(alloc, db, steps)?)
}

// The same in a new database.
fn dump_behind<L: Ledger>(alloc: Global, blank: Blank) -> Result<Vec<u8>, Fail>
    requires name { blank.name ≡ L.name }
    requires parts { blank.parts ≡ L.parts }
    requires some { 0 < blank.parts }
{
    let mut db = database(alloc)?;
    let dump = all_executed(alloc, &mut db, &mut Steps::<L>::new(blank));
    drop(db);
    dump
}

fn is_due(dump: &[u8]) -> bool {
    dump == DUMPED
}

// It passes also where any one allocation is refused, which `bench/faults session` does.
#[test]
fn a_session_goes_on_where_memory_was_refused(rt: HostRuntime) -> Result<(), Fail> {
    let dump = dump_behind::<Brand>(rt.alloc(), Blank::new(1))?;
    let is_due = is_due(dump.as_slice());
    drop(dump);
    if is_due {
        Ok(())
    } else {
        Err(Fail::new("the dump is another"))
    }
}
