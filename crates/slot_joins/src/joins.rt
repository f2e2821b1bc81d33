ghost use Rattle.std.specs.Prelude.{◌≡◌, Some, true, slice_get, IsTrue, IfOk, IfSome};
ghost use Rattle.slot_joins.specs.inside.Joins.{FitsBy, IsToldByJoin};

use index_traits::{Adjacent, Row, ValueOf};
use join_tables::JoinTable;
use lore_base::limits::RANGES;
use lore_base::{NoMemory, OidBuf, Steps};
use lorel_eval::{in_slot, is_marked};
use std::alloc::Global;
use std::sync::ledger::Ledger;
use word_walks::{OnlyWord, Reached};

// How many objects a table may tell for a row: so few that another member of the condition can't
// save much by telling fewer.
const MOST_FOR_A_ROW: usize = 8;

/// What a comparison of two slots tells of one: by the value to which the word leads from the
/// other, where this is a whole number, the table has the objects that fit.
#[derive(Drop)]
pub(crate) struct Join {
    pub(crate) start: u32,
    pub(crate) word: OnlyWord,
    pub(crate) slot: u32,
    pub(crate) table: JoinTable,
}

/// The objects that fit the slot by the first of the joins that tells.
pub(crate) fn fitting_by<G: Adjacent + ValueOf, L: Ledger>(
    alloc: Global,
    graph: &G,
    joins: &[Join],
    known: &[bool; RANGES],
    slot: u32,
    row: &Row,
    steps: &mut Steps<L>,
) -> Result<Option<OidBuf>, NoMemory>
    ensures { IfOk result (λ found. IfSome found (IsToldByJoin (G.edges graph.now)
        (G.objects graph.now) joins.now known.now slot row.now)) }
{
    'joins: for join in joins {
        if is_asked(join, known, slot) {
            let found = partners_of(alloc, graph, join, row, steps)?;
            if found.is_some() {
                return Ok(found);
            }
        }
    }
    Ok(None)
}

// Whether the join tells of the slot, from one that is known.
fn is_asked(join: &Join, known: &[bool; RANGES], slot: u32) -> bool
    ensures slot { IsTrue result → join.now.slot ≡ slot }
    ensures known { IsTrue result → slice_get known.now join.now.start ≡ Some true }
{
    if join.slot != slot {
        return false;
    }
    is_marked(known, join.start)
}

// The objects that fit the row by the join; None where its other slot leads to a value that is no
// whole number, and where they are many.
fn partners_of<G: Adjacent + ValueOf, L: Ledger>(
    alloc: Global,
    graph: &G,
    join: &Join,
    row: &Row,
    steps: &mut Steps<L>,
) -> Result<Option<OidBuf>, NoMemory>
    ensures { IfOk result (λ found. IfSome found
        (FitsBy (G.edges graph.now) (G.objects graph.now) join.now row.now)) }
{
    let Some(from) = in_slot(row, join.start) else {
        return Ok(None);
    };
    let mut own = Reached::new(alloc);
    own.walk(graph, &join.word, from, steps)?;
    join.table
        .partners(alloc, graph, own.as_slice(), MOST_FOR_A_ROW)
}
