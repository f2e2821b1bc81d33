ghost use Rattle.std.specs.Prelude.{◌≡◌, ℕ, ◌+◌, ◌⊎◌, true, false, List, length, slice_index_or, IfOk};
ghost use Rattle.object_search.specs.LowerParents.{AreLed};
ghost use Rattle.object_search.specs.Types.{Oid as TheOid};

use lore_base::{Edge, NoMemory, Oid};
use std::alloc::Global;

// Notes the object, where it is one of those that the places stand for, counted from `first` on.
fn note(noted: &mut Vec<bool>, first: Oid, oid: Oid)
    ensures count { length noted.new.items ≡ length noted.old.items }
    ensures each { (place : ℕ) → slice_index_or noted.new.items place false ≡ true
        → (slice_index_or noted.old.items place false ≡ true) ⊎ (first.0 + place ≡ oid.0) }
{
    if oid.0 < first.0 {
        return;
    }
    let place = (oid.0 - first.0) as usize;
    if place < noted.len() {
        noted[place] = true;
    }
}

// Notes the starts.
fn note_starts(noted: &mut Vec<bool>, first: Oid, starts: &[Oid], edges: &[Edge])
    ensures count { length noted.new.items ≡ length noted.old.items }
    ensures led { AreLed starts.now edges.now first.0 noted.old.items
        → AreLed starts.now edges.now first.0 noted.new.items }
{
    'starts: for start in starts {
        note(noted, first, *start);
    }
}

// Notes the children of edges that lead from lower numbers to higher ones.
fn note_children(noted: &mut Vec<bool>, first: Oid, edges: &[Edge])
    ensures count { length noted.new.items ≡ length noted.old.items }
    ensures led { (starts : List TheOid) → AreLed starts edges.now first.0 noted.old.items
        → AreLed starts edges.now first.0 noted.new.items }
{
    'edges: for edge in edges {
        if edge.parent.0 < edge.child.0 {
            note(noted, first, edge.child);
        }
    }
}

/// Notes, of `count` numbers from that of `first` on, those of starts and of children of edges that
/// lead from lower numbers. Where each object's number is noted, some walk leads to each of them, and
/// none has to be searched for. It holds of what a literal makes: an object is numbered where it
/// begins, behind the one that it stands in.
pub fn noted_as_led(
    alloc: Global,
    starts: &[Oid],
    edges: &[Edge],
    first: Oid,
    count: usize,
) -> Result<Vec<bool>, NoMemory>
    ensures count { IfOk result (λ noted. length noted.items ≡ count) }
    ensures led { IfOk result (λ noted. AreLed starts.now edges.now first.0 noted.items) }
{
    let mut noted = vec![in alloc; false; count]?;
    note_starts(&mut noted, first, starts, edges);
    note_children(&mut noted, first, edges);
    Ok(noted)
}
