ghost use Rattle.std.specs.Prelude.{◌≡◌, ◌≤◌, length, Contains, IfOk, IfSome, OnOk};
ghost use Rattle.std.specs.Ordering.{is_eq};
ghost use Rattle.join_tables.specs.Types.{Value as TheValue, Whole};
ghost use Rattle.join_tables.specs.Tables.{AreValuesOf, IsTableBy, ArePartners};
ghost use Rattle.join_tables.specs.inside.Runs.{AscendByNumber, TakesRun, side_of, IsFromNumber};
ghost use Rattle.join_tables.specs.inside.Runs.{HaveTheSame};

use crate::leading::leading_to;
use crate::numbers::{NumberList, count_of_numbers, ends_of};
use index_traits::{Links, ValueOf, Values};
use lore_base::{Label, NoMemory, Oid, OidBuf, Steps, Value};
use std::alloc::Global;
use std::cmp::Ordering;
use std::marker::Model;
use std::sync::ledger::Ledger;

/// Objects under whole numbers. Contracts see it as the list of them.
#[derive(Drop)]
pub struct JoinTable {
    // In the order of their numbers.
    rows: NumberList,
}

impl Model for JoinTable {
    ghost use Rattle.std.specs.Prelude.{ℤ, List};
    ghost use Rattle.join_tables.specs.Types.{Oid};
    ghost use Rattle.join_tables.specs.inside.Runs.{AscendByNumber};

    ghost Value = { List (ℤ × Oid) };

    ghost view = { λ t. t.rows };

    ghost invariant = { λ t. AscendByNumber t.rows };
}

impl JoinTable {
    /// The table of the objects that lead along the word to a value under its last label: it has
    /// each under the whole number that this value is equal to, if there is one. None where more
    /// than `most` would have to be listed, as where many lead to one that leads to many; and
    /// where the word is empty.
    pub fn new<G: ValueOf, K: Links, V: Values, L: Ledger>(
        alloc: Global,
        graph: &G,
        links: &K,
        values: &V,
        word: &[Label],
        most: usize,
        steps: &mut Steps<L>,
    ) -> Result<Option<JoinTable>, NoMemory>
        requires { AreValuesOf (G.objects graph.now) (V.entries values.now) }
        ensures { IfOk result (λ found. IfSome found
            (IsTableBy (K.edges links.now) (V.entries values.now) word.now)) }
    {
        match rows_of(alloc, graph, links, values, word, most, steps)? {
            Some(rows) => Ok(Some(JoinTable::sorted(rows))),
            None => Ok(None),
        }
    }

    /// How many pairs of a number and an object there are.
    pub fn len(&self) -> usize
        ensures { result ≡ length self.now }
    {
        self.rows.len()
    }

    // The table of these rows.
    fn sorted(rows: NumberList) -> JoinTable
        ensures { HaveTheSame rows result }
    {
        let mut rows = rows;
        rows.sort_set();
        JoinTable { rows }
    }

    /// The objects under the numbers that these objects have as values, ascending, each once. None
    /// where one of these has another value, or none, and where more than `most` are under them.
    pub fn partners<G: ValueOf>(
        &self,
        alloc: Global,
        graph: &G,
        own: &[Oid],
        most: usize,
    ) -> Result<Option<OidBuf>, NoMemory>
        ensures { IfOk result (λ found. IfSome found
            (ArePartners (G.objects graph.now) self.now own.now)) }
    {
        let mut oids = OidBuf::new(alloc);
        'own: for oid in own {
            let Some(number) = whole_at(graph, *oid) else {
                return Ok(None);
            };
            push_run(self.rows.as_slice(), &number, most, &mut oids)?;
            if oids.len() > most {
                return Ok(None);
            }
        }
        oids.sort_set();
        Ok(Some(oids))
    }
}

// The rows of a table by the word, in no order; None where they are too many.
fn rows_of<G: ValueOf, K: Links, V: Values, L: Ledger>(
    alloc: Global,
    graph: &G,
    links: &K,
    values: &V,
    word: &[Label],
    most: usize,
    steps: &mut Steps<L>,
) -> Result<Option<NumberList>, NoMemory>
    requires { AreValuesOf (G.objects graph.now) (V.entries values.now) }
    ensures { IfOk result (λ found. IfSome found
        (IsTableBy (K.edges links.now) (V.entries values.now) word.now)) }
{
    let Some(label) = word.last() else {
        return Ok(None);
    };
    if count_of_numbers(values, *label) as usize > most {
        return Ok(None);
    }
    let ends = ends_of(alloc, graph, values, *label)?;
    leading_to(alloc, links, word, ends, most, steps)
}

// The whole number that is the value of the object; None where that is no such number.
fn whole_at<G: ValueOf>(graph: &G, oid: Oid) -> Option<i64>
    ensures { IfSome result (λ number. (value : TheValue)
        → Contains (G.objects graph.now) (oid, value) → value ≡ Whole number) }
{
    match graph.value_of(oid) {
        Some(value) => whole_of(value),
        None => None,
    }
}

// The value as a whole number.
fn whole_of(value: &Value) -> Option<i64>
    ensures { IfSome result (λ number. value.now ≡ Whole number) }
{
    match value {
        Value::Whole(number) => Some(*number),
        _ => None,
    }
}

// Appends the objects under the number, which are found by bisection; not all where there are more
// than so many.
fn push_run(
    rows: &[(i64, Oid)],
    number: &i64,
    most: usize,
    oids: &mut OidBuf,
) -> Result<(), NoMemory>
    requires { AscendByNumber rows.now }
    ensures { OnOk result
        (length oids.new ≤ most → TakesRun rows.now number.now oids.old oids.new) }
{
    let start = rows.partition_point(|row| side(row, number) == Ordering::Less);
    push_front(&rows[start..], number, most, oids)
}

// How the number of a row compares with the one that is asked for.
fn side(row: &(i64, Oid), number: &i64) -> Ordering
    ensures { result ≡ side_of number.now row.now }
{
    row.0.cmp(number)
}

// Whether the row is under the number.
fn is_under(row: &(i64, Oid), number: &i64) -> bool
    ensures { result ≡ is_eq (side_of number.now row.now) }
{
    side(row, number).is_eq()
}

// Appends the objects under the number, which come first, until there are more than so many.
fn push_front(
    rows: &[(i64, Oid)],
    number: &i64,
    most: usize,
    oids: &mut OidBuf,
) -> Result<(), NoMemory>
    requires { IsFromNumber number.now rows.now }
    ensures { OnOk result
        (length oids.new ≤ most → TakesRun rows.now number.now oids.old oids.new) }
{
    'rows: for row in rows {
        if oids.len() > most {
            return Ok(());
        }
        if !is_under(row, number) {
            return Ok(());
        }
        oids.push(row.1)?;
    }
    Ok(())
}
