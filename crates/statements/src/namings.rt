ghost use Rattle.std.specs.Prelude.{◌≡◌, [], ◌∷◌, length, None, All, IfOk, IfErr};
ghost use Rattle.std.specs.declared.result.Result.TheVariants.{Ok as Done, Err as Ended};
ghost use Rattle.lore_base.specs.Verdicts.{IsToldBy};
ghost use Rattle.lorel_trees.specs.Trees.{rooted_tree, select_tree, bind, unname};
ghost use Rattle.lorel_ranges.specs.Texts.{IsShallow};
ghost use Rattle.statements.specs.Forms.{path_select};
ghost use Rattle.statements.specs.Effects as effects;
ghost use Rattle.statements.specs.Statements.{Cause, cause_order};
ghost use Rattle.statements.specs.inside.Listed.{ListsChanges};
ghost use Rattle.statements.specs.Stops.{told};
ghost use Rattle.statements.specs.declared.stops.Stop.{Stop as TheStop};
ghost use Rattle.statements.specs.inside.Stages.{IsOneObject, IsOnly, IsNotOnly, not_one};

use crate::selects::rows_of;
use crate::stops::Stop;
use lore_base::{Changes, NoMemory, OemText, Oid, Refusal, Steps, TryCopy};
use lore_store::Store;
use lorel_bound::{Answer, Cell};
use lorel_trees::{FromList, Item, ItemList, Rooted, Select, Tail};
use std::alloc::Global;
use std::sync::ledger::Ledger;

/// The changes that bind a name to the one object that a path reaches, in place of an older
/// binding. Refused is a path that reaches none or several (`NotOne`), however many.
pub(crate) fn name_changes<L: Ledger>(
    alloc: Global,
    store: &Store,
    name: &OemText,
    path: &Rooted,
    steps: &mut Steps<L>,
) -> Result<Changes, Stop>
    requires shallow { IsShallow (path_select (rooted_tree path.now)) }
    ensures lists { let tree = bind name.now (rooted_tree path.now) in
        IfOk result (ListsChanges store.now.db tree) }
    ensures refused { let tree = bind name.now (rooted_tree path.now) in
        IfErr result (λ stop. IsToldBy (Cause store.now.db tree) cause_order (told stop)) }
{
    // That the database is valid is known where its graph is looked at.
    let _graph = store.graph();
    let query = path_query(alloc, path)?;
    let answer = rows_of(alloc, store, &query, steps);
    drop(query);
    let rows = few_rows(answer)?;
    let oid = only_object(&rows)?;
    Ok(naming(alloc, name, oid)?)
}

/// The changes that take a name away.
pub(crate) fn unname_changes(alloc: Global, store: &Store, name: &OemText) -> Result<Changes, Stop>
    ensures lists { IfOk result (ListsChanges store.now.db (unname name.now)) }
    ensures refused { IfErr result (λ stop.
        IsToldBy (Cause store.now.db (unname name.now)) cause_order (told stop)) }
{
    if store.graph().name(name).is_none() {
        return Err(Stop::Refused(Refusal::UnknownName));
    }
    Ok(unnaming(alloc, name)?)
}

// The select of the path.
fn path_query(alloc: Global, path: &Rooted) -> Result<Select, NoMemory>
    ensures { IfOk result (λ query. select_tree query ≡ path_select (rooted_tree path.now)) }
{
    let mut items = ItemList::new(alloc);
    items.push(Item::Object(path.try_copy(alloc)?))?;
    Ok(Select {
        items,
        tail: Tail {
            ranges: FromList::new(alloc),
            cond: None,
        },
    })
}

// The rows, where there are no more than an answer may have: more than these are not one.
fn few_rows(answer: Result<Answer, Stop>) -> Result<Answer, Stop>
    ensures ok { IfOk result (λ rows. answer ≡ Done rows) }
    ensures refused { IfErr result (λ stop.
        (ended : TheStop) × (answer ≡ Ended ended) × (told stop ≡ not_one (told ended))) }
{
    match answer {
        Err(Stop::Refused(Refusal::TooManyRows)) => Err(Stop::Refused(Refusal::NotOne)),
        other => other,
    }
}

// The object of the only row; there may be none or several.
fn only_object(answer: &Answer) -> Result<Oid, Stop>
    requires { All IsOneObject answer.now }
    ensures one { IfOk result (λ oid. IsOnly answer.now oid) }
    ensures refused { IfErr result (λ stop. IsNotOnly answer.now stop) }
{
    match answer.as_slice() {
        [row] => match row.as_slice() {
            [Cell::Object(oid)] => Ok(*oid),
            _ => unreachable!(),
        },
        _ => Err(Stop::Refused(Refusal::NotOne)),
    }
}

// The changes that bind the name to the object.
fn naming(alloc: Global, name: &OemText, oid: Oid) -> Result<Changes, NoMemory>
    ensures { IfOk result (λ changes. changes ≡ effects.naming name.now ((oid, None) ∷ [])) }
{
    let mut changes = Changes::new(alloc);
    changes.named.put(name.try_copy(alloc)?, oid)?;
    Ok(changes)
}

// The changes that take the name away.
fn unnaming(alloc: Global, name: &OemText) -> Result<Changes, NoMemory>
    ensures { IfOk result (λ changes. changes ≡ effects.unnaming name.now) }
{
    let mut changes = Changes::new(alloc);
    changes.unnamed.push(name.try_copy(alloc)?)?;
    Ok(changes)
}
