ghost use Rattle.std.specs.Prelude.{◌≡◌, ◌<◌, ◌≤◌, ◌+◌, Some, None, List, [], ◌∷◌, length, slice_set};
ghost use Rattle.std.specs.Prelude.{All, vec_len, vec_capacity};
ghost use Rattle.sorted_list.specs.SortedLists.{Ascends};
ghost use Rattle.link_index.specs.declared.heads.Head.{Head as TheHead};
ghost use Rattle.link_index.specs.inside.LinkEdges.{order};
ghost use Rattle.link_index.specs.inside.Records as spec;
ghost use Rattle.link_index.specs.inside.Records.{AreAscendingHeads, AreChained, IsListed, HasLink};
ghost use Rattle.link_index.specs.inside.Records.{ArePut, AreTaken, IsStart, free_before};

use crate::chains::{last_at, lead, next_of, place_before, start_of};
use crate::heads::Head;
use crate::link::Link;
use crate::listing::{are_below, insert_child};
use crate::records::{LinkRecord, add_record, after_at};

// Puts a new link of a child that comes behind all that are listed. The child is listed, with this
// link alone. Takes no memory.
fn put_first(
    heads: &mut Vec<Head>,
    records: &mut Vec<LinkRecord>,
    free: &mut Option<usize>,
    link: &Link,
) -> usize
    requires heads { vec_len heads.old < vec_capacity heads.old }
    requires room { vec_len records.old < vec_capacity records.old }
    requires ascend { AreAscendingHeads heads.old.items }
    requires below { All (λ head. head.child.0 < link.now.child.0) heads.old.items }
    requires chained { AreChained heads.old.items records.old.items }
    ensures put { ArePut (link.now ∷ []) records.old.items heads.new.items records.new.items }
    ensures heads_len { vec_len heads.new ≤ vec_len heads.old + 1 }
    ensures heads_capacity { vec_capacity heads.new ≡ vec_capacity heads.old }
    ensures len { vec_len records.new ≤ vec_len records.old + 1 }
    ensures capacity { vec_capacity records.new ≡ vec_capacity records.old }
{
    let key = add_record(records, free, link, None);
    let head = Head {
        child: link.child,
        first: Some(key),
    };
    heads.push_reserved(head);
    key
}

// Puts a new link behind the last one of its child's list, which lies at the place. Takes no
// memory.
fn put_last(
    records: &mut Vec<LinkRecord>,
    free: &mut Option<usize>,
    link: &Link,
    place: usize,
) -> usize
    requires room { vec_len records.old < vec_capacity records.old }
    requires new { ¬ HasLink records.old.items link.now }
    requires start { IsStart records.old.items link.now (Some place) }
    requires last { spec.after_at records.old.items place ≡ None }
    ensures put { (heads : List TheHead) → AreAscendingHeads heads
        → AreChained heads records.old.items
        → ArePut (link.now ∷ []) records.old.items heads records.new.items }
    ensures len { vec_len records.new ≤ vec_len records.old + 1 }
    ensures capacity { vec_capacity records.new ≡ vec_capacity records.old }
{
    let key = add_record(records, free, link, None);
    records[place].after = Some(key);
    key
}

// Puts a new link into the list of its child, which is listed. Its place is looked for from a place
// before it. Takes no memory.
fn put_between(
    heads: &mut [Head],
    records: &mut Vec<LinkRecord>,
    free: &mut Option<usize>,
    link: &Link,
    start: Option<usize>,
) -> usize
    requires room { vec_len records.old < vec_capacity records.old }
    requires ascend { AreAscendingHeads heads.old }
    requires listed { IsListed heads.old link.now.child }
    requires new { ¬ HasLink records.old.items link.now }
    requires chained { AreChained heads.old records.old.items }
    requires start { IsStart records.old.items link.now start }
    ensures put { ArePut (link.now ∷ []) records.old.items heads.new records.new.items }
    ensures same { length heads.new ≡ length heads.old }
    ensures len { vec_len records.new ≤ vec_len records.old + 1 }
    ensures capacity { vec_capacity records.new ≡ vec_capacity records.old }
{
    let place = place_before(heads, records.as_slice(), link, start);
    let next = next_of(heads, records.as_slice(), link.child, place);
    let key = add_record(records, free, link, next);
    lead(heads, records.as_mut_slice(), link.child, place, Some(key));
    key
}

// Puts a new link into the list of its child, which is listed where it wasn't. Mostly no search is
// needed: the child comes behind all others, or the link behind all others of its child, and so
// right behind the one that was put before. Takes no memory.
fn put_link(
    heads: &mut Vec<Head>,
    records: &mut Vec<LinkRecord>,
    free: &mut Option<usize>,
    link: &Link,
    before: Option<usize>,
) -> usize
    requires heads { vec_len heads.old < vec_capacity heads.old }
    requires room { vec_len records.old < vec_capacity records.old }
    requires ascend { AreAscendingHeads heads.old.items }
    requires new { ¬ HasLink records.old.items link.now }
    requires chained { AreChained heads.old.items records.old.items }
    ensures put { ArePut (link.now ∷ []) records.old.items heads.new.items records.new.items }
    ensures heads_len { vec_len heads.new ≤ vec_len heads.old + 1 }
    ensures heads_capacity { vec_capacity heads.new ≡ vec_capacity heads.old }
    ensures len { vec_len records.new ≤ vec_len records.old + 1 }
    ensures capacity { vec_capacity records.new ≡ vec_capacity records.old }
{
    if are_below(heads.as_slice(), link.child) {
        return put_first(heads, records, free, link);
    }
    let start = start_of(records.as_slice(), link, before);
    if let Some(place) = last_at(records.as_slice(), start) {
        return put_last(records, free, link, place);
    }
    insert_child(heads, link.child);
    put_between(heads.as_mut_slice(), records, free, link, start)
}

// Puts new links, which ascend, into the lists of their children. Takes no memory.
pub(crate) fn put_links(
    heads: &mut Vec<Head>,
    records: &mut Vec<LinkRecord>,
    free: &mut Option<usize>,
    come: &[Link],
)
    requires heads { vec_len heads.old + length come.now ≤ vec_capacity heads.old }
    requires room { vec_len records.old + length come.now ≤ vec_capacity records.old }
    requires ascend { AreAscendingHeads heads.old.items }
    requires new { All (λ link. ¬ HasLink records.old.items link) come.now }
    requires order { Ascends order come.now }
    requires chained { AreChained heads.old.items records.old.items }
    ensures { ArePut come.now records.old.items heads.new.items records.new.items }
{
    let mut last = None;
    'come: for link in come {
        last = Some(put_link(heads, records, free, link, last));
    }
}

// Takes a link from the list of its child, whose place is looked for from a place before it, and
// tells that place. Its record is free then. Takes no memory.
fn take_link(
    heads: &mut [Head],
    records: &mut [LinkRecord],
    free: &mut Option<usize>,
    link: &Link,
    start: Option<usize>,
) -> Option<usize>
    requires ascend { AreAscendingHeads heads.old }
    requires has { HasLink records.old link.now }
    requires chained { AreChained heads.old records.old }
    requires start { IsStart records.old link.now start }
    ensures { AreTaken (link.now ∷ []) heads.old records.old heads.new records.new }
{
    let place = place_before(heads, records, link, start);
    let Some(key) = next_of(heads, records, link.child, place) else {
        return place;
    };
    let next = after_at(records, key);
    lead(heads, records, link.child, place, next);
    free_record(records, free, key);
    place
}

// Makes the record at this place a free one, the first of them. Takes no memory.
fn free_record(records: &mut [LinkRecord], free: &mut Option<usize>, place: usize)
    requires { place < length records.old }
    ensures { records.new ≡ slice_set records.old place (free_before free.old) }
{
    records[place] = LinkRecord {
        edge: None,
        after: *free,
    };
    *free = Some(place);
}

// Takes links, which ascend, from the lists of their children. Takes no memory.
pub(crate) fn take_links(
    heads: &mut [Head],
    records: &mut [LinkRecord],
    free: &mut Option<usize>,
    gone: &[Link],
)
    requires ascend { AreAscendingHeads heads.old }
    requires has { All (HasLink records.old) gone.now }
    requires order { Ascends order gone.now }
    requires chained { AreChained heads.old records.old }
    ensures { AreTaken gone.now heads.old records.old heads.new records.new }
{
    let mut last = None;
    'gone: for link in gone {
        let start = start_of(records, link, last);
        last = take_link(heads, records, free, link, start);
    }
}
