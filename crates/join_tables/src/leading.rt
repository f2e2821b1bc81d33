ghost use Rattle.std.specs.Prelude.{◌≡◌, ◌≤◌, ◌++◌, length, map, IfOk, IfSome, OnOk};
ghost use Rattle.join_tables.specs.inside.Leading.{LeadInto, LeadBy, TakesParents, parent_of};

use crate::numbers::NumberList;
use index_traits::Links;
use lore_base::{Edge, EdgeBuf, Label, Listing, NoMemory, Oid, Steps};
use std::alloc::Global;
use std::sync::ledger::Ledger;

/// The objects from which the word is walked to some of these, under the same numbers. None where
/// more than so many are met on the way.
pub(crate) fn leading_to<K: Links, L: Ledger>(
    alloc: Global,
    links: &K,
    word: &[Label],
    ends: NumberList,
    most: usize,
    steps: &mut Steps<L>,
) -> Result<Option<NumberList>, NoMemory>
    ensures { IfOk result (λ found. IfSome found (LeadInto (K.edges links.now) word.now ends)) }
{
    let mut found = ends;
    'labels: for taken in 0..word.len() {
        let label = word[word.len() - 1 - taken];
        found = parents_by(alloc, links, label, found.as_slice(), most, steps)?;
        if found.len() > most {
            return Ok(None);
        }
    }
    Ok(Some(found))
}

// The parents of these objects by the label, each under the number of its child; some of them
// where there are more than so many.
fn parents_by<K: Links, L: Ledger>(
    alloc: Global,
    links: &K,
    label: Label,
    children: &[(i64, Oid)],
    most: usize,
    steps: &mut Steps<L>,
) -> Result<NumberList, NoMemory>
    ensures { IfOk result (λ found. length found ≤ most
        → LeadBy (K.edges links.now) label children.now found) }
{
    let mut found = Listing::with_capacity(alloc, children.len())?;
    let mut edges = EdgeBuf::new(alloc);
    'children: for child in children {
        if found.len() > most {
            return Ok(found);
        }
        push_parents(links, label, *child, &mut edges, &mut found, steps)?;
    }
    Ok(found)
}

// Appends the parents of one object. `edges` has room for the edges that lead there.
fn push_parents<K: Links, L: Ledger>(
    links: &K,
    label: Label,
    child: (i64, Oid),
    edges: &mut EdgeBuf,
    found: &mut NumberList,
    steps: &mut Steps<L>,
) -> Result<(), NoMemory>
    ensures { OnOk result (TakesParents (K.edges links.now) label child found.old found.new) }
{
    edges.cut(0);
    links.parents(child.1, Some(label), edges, steps)?;
    push_each(edges.as_slice(), child.0, found)
}

// Appends the parents of these edges under the number.
fn push_each(edges: &[Edge], number: i64, found: &mut NumberList) -> Result<(), NoMemory>
    ensures { OnOk result (found.new ≡ found.old ++ map (parent_of number) edges.now) }
{
    'edges: for edge in edges {
        found.push((number, edge.parent))?;
    }
    Ok(())
}
