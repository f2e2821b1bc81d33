ghost use Rattle.std.specs.Prelude.{◌≡◌, ◌<◌, ◌≤◌, ◌+◌, IfSome, length, vec_len, vec_capacity, None};
ghost use Rattle.link_index.specs.inside.Records as spec;
ghost use Rattle.link_index.specs.inside.Records.{IsWritten, record_of};

use crate::link::Link;

/// An edge, and the place of the record of the next edge that enters its child. A free record has
/// no edge, and the place of the next free one.
#[derive(Clone, Copy, Debug)]
pub(crate) struct LinkRecord {
    pub(crate) edge: Option<Link>,
    pub(crate) after: Option<usize>,
}

// The place of the record behind the one at this place.
pub(crate) fn after_at(records: &[LinkRecord], place: usize) -> Option<usize>
    ensures { result ≡ spec.after_at records.now place }
{
    let record = records.get(place)?;
    record.after
}

// The link of the record at this place; None where it is free or there is none.
pub(crate) fn edge_at(records: &[LinkRecord], place: usize) -> Option<Link>
    ensures { result ≡ spec.edge_at records.now place }
{
    let record = records.get(place)?;
    record.edge
}

// The place, where a free record lies there.
fn free_at(records: &[LinkRecord], place: Option<usize>) -> Option<usize>
    ensures inside { IfSome result (λ place. place < length records.now) }
    ensures free { IfSome result (λ place. spec.edge_at records.now place ≡ None) }
{
    let place = place?;
    let record = records.get(place)?;
    if record.edge.is_none() {
        Some(place)
    } else {
        None
    }
}

// Writes the record of a link, behind which comes this one, behind all or over a free one. Takes no
// memory.
pub(crate) fn add_record(
    records: &mut Vec<LinkRecord>,
    free: &mut Option<usize>,
    link: &Link,
    after: Option<usize>,
) -> usize
    requires { vec_len records.old < vec_capacity records.old }
    ensures written { IsWritten records.old.items result (record_of link.now after)
        records.new.items }
    ensures len { vec_len records.new ≤ vec_len records.old + 1 }
    ensures capacity { vec_capacity records.new ≡ vec_capacity records.old }
{
    if free.is_some() {
        return fill_record(records, free, link, after);
    }
    records.push_reserved(LinkRecord {
        edge: Some(*link),
        after,
    });
    records.len() - 1
}

// Writes it over a free record, from the head of the chain of these on, or behind all where there is
// none.
fn fill_record(
    records: &mut Vec<LinkRecord>,
    free: &mut Option<usize>,
    link: &Link,
    after: Option<usize>,
) -> usize
    requires { vec_len records.old < vec_capacity records.old }
    ensures written { IsWritten records.old.items result (record_of link.now after)
        records.new.items }
    ensures len { vec_len records.new ≤ vec_len records.old + 1 }
    ensures capacity { vec_capacity records.new ≡ vec_capacity records.old }
{
    let written = LinkRecord {
        edge: Some(*link),
        after,
    };
    if let Some(place) = free_at(records.as_slice(), *free) {
        *free = after_at(records.as_slice(), place);
        records[place] = written;
        return place;
    }
    *free = None;
    records.push_reserved(written);
    records.len() - 1
}
