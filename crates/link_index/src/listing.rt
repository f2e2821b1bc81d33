ghost use Rattle.std.specs.Prelude.{◌≡◌, ◌<◌, ◌≤◌, ◌+◌, length, All, IfSome, IfNone, vec_len, vec_capacity};
ghost use Rattle.std.specs.Bool.{OnTrue};
ghost use Rattle.link_index.specs.inside.Heads.{IsGap, IsWithChild, SameHeads};
ghost use Rattle.link_index.specs.inside.Records.{AreAscendingHeads, IsListed};

use crate::heads::{Head, first_of, place_of};
use crate::link::Link;
use lore_base::Oid;

// Lists a child, without a record as yet, where it wasn't listed. Takes no memory.
pub(crate) fn insert_child(heads: &mut Vec<Head>, child: Oid)
    requires ascend { AreAscendingHeads heads.old.items }
    requires room { vec_len heads.old < vec_capacity heads.old }
    ensures listed { IsWithChild heads.old.items child heads.new.items }
    ensures len { vec_len heads.new ≤ vec_len heads.old + 1 }
    ensures capacity { vec_capacity heads.new ≡ vec_capacity heads.old }
{
    let Some(place) = gap_of(heads.as_slice(), child) else {
        return;
    };
    let head = Head { child, first: None };
    let Ok(()) = heads.insert(place, head) else {
        unreachable!();
    };
}

// The place before which a child would stand; None where it is listed.
fn gap_of(heads: &[Head], child: Oid) -> Option<usize>
    requires { AreAscendingHeads heads.now }
    ensures gap { IfSome result (IsGap heads.now child) }
    ensures listed { IfNone result (IsListed heads.now child) }
{
    if place_of(heads, child).is_some() {
        return None;
    }
    match heads.binary_search_by_key(&child, |head| head.child) {
        Ok(_) => None,
        Err(place) => Some(place),
    }
}

// Whether all children are below this one, told by the last of them.
pub(crate) fn are_below(heads: &[Head], child: Oid) -> bool
    requires { AreAscendingHeads heads.now }
    ensures { OnTrue result (All (λ head. head.child.0 < child.0) heads.now) }
{
    match heads.last() {
        Some(last) => last.child.0 < child.0,
        None => true,
    }
}

// Takes out of the list the children that no edge enters, where one of these links led to such a
// child. Takes no memory.
pub(crate) fn drop_childless(heads: &mut Vec<Head>, gone: &[Link])
    requires { AreAscendingHeads heads.old.items }
    ensures ascend { AreAscendingHeads heads.new.items }
    ensures same { SameHeads heads.old.items heads.new.items }
{
    if let Some(first) = first_childless(heads.as_slice(), gone) {
        drop_from(heads, first);
    }
}

// The place of the first of these links' children that no edge enters.
fn first_childless(heads: &[Head], links: &[Link]) -> Option<usize>
    requires { AreAscendingHeads heads.now }
    ensures { IfSome result (λ place. place < length heads.now) }
{
    'links: for link in links {
        let place = childless_at(heads, link.child);
        if place.is_some() {
            return place;
        }
    }
    None
}

// The place of a child that is listed and that no edge enters.
fn childless_at(heads: &[Head], child: Oid) -> Option<usize>
    requires { AreAscendingHeads heads.now }
    ensures { IfSome result (λ place. place < length heads.now) }
{
    let place = place_of(heads, child)?;
    match heads[place].first {
        Some(_) => None,
        None => Some(place),
    }
}

// Takes the children that no edge enters out of the list from this place on: the others behind it
// move forward.
fn drop_from(heads: &mut Vec<Head>, first: usize)
    requires ascend { AreAscendingHeads heads.old.items }
    requires within { first ≤ length heads.old.items }
    ensures ascend { AreAscendingHeads heads.new.items }
    ensures same { SameHeads heads.old.items heads.new.items }
{
    let mut end = first;
    let mut place = first;
    'heads: while place < heads.len() {
        let head = heads[place];
        if head.first.is_some() {
            heads[end] = head;
            end += 1;
        }
        place += 1;
    }
    heads.truncate(end);
}
