ghost use Rattle.std.specs.Prelude.{◌≡◌, ◌<◌, IsTrue, ◌↔◌, IfSome, Some, None, length};
ghost use Rattle.link_index.specs.inside.Records as spec;
ghost use Rattle.link_index.specs.inside.Records.{AreAscendingHeads, AreChained, IsListed, IsLed};
ghost use Rattle.link_index.specs.inside.Records.{IsPlace, IsStart, Precedes};

use crate::heads::{Head, first_of, set_head};
use crate::link::Link;
use crate::records::{LinkRecord, after_at, edge_at};
use lore_base::Oid;

// What follows the place in the child's list: the first record where there is no place.
pub(crate) fn next_of(
    heads: &[Head],
    records: &[LinkRecord],
    child: Oid,
    place: Option<usize>,
) -> Option<usize>
    requires { AreAscendingHeads heads.now }
    ensures { result ≡ spec.next_of heads.now records.now child place }
{
    match place {
        Some(place) => after_at(records, place),
        None => first_of(heads, child),
    }
}

// Sets what follows the place.
pub(crate) fn lead(
    heads: &mut [Head],
    records: &mut [LinkRecord],
    child: Oid,
    place: Option<usize>,
    link: Option<usize>,
)
    requires ascend { AreAscendingHeads heads.old }
    requires listed { IsListed heads.old child }
    requires place { IfSome place (λ place. place < length records.old) }
    ensures { IsLed child place link heads.old records.old heads.new records.new }
{
    match place {
        Some(place) => records[place].after = link,
        None => set_head(heads, child, link),
    }
}

// Whether both lead to one child, the first before the second.
fn precedes(a: &Link, b: &Link) -> bool
    ensures { IsTrue result ↔ Precedes a.now b.now }
{
    a.child == b.child && a < b
}

// Where to look for the place of a link from: the last place, if it is that of a link before this
// one in the same list, and else the first record.
pub(crate) fn start_of(records: &[LinkRecord], link: &Link, last: Option<usize>) -> Option<usize>
    ensures { IsStart records.now link.now result }
{
    let place = last?;
    let before = edge_at(records, place)?;
    if precedes(&before, link) {
        Some(place)
    } else {
        None
    }
}

// The place, where it is given and nothing follows it in its list.
pub(crate) fn last_at(records: &[LinkRecord], place: Option<usize>) -> Option<usize>
    ensures given { IfSome result (λ last. place ≡ Some last) }
    ensures last { IfSome result (λ last. spec.after_at records.now last ≡ None) }
{
    let place = place?;
    match after_at(records, place) {
        Some(_) => None,
        None => Some(place),
    }
}

// How many records of a list are walked before later ones are looked for by strides.
const SHORT: usize = 16;

// How many are walked before later ones are looked for all over.
const LONG: usize = 128;

// How many records are looked at then.
const PROBES: usize = 1_024;

// More strides than a place has halves.
const STRIDES: usize = 64;

// The place of the last link that stands before this one in its child's list, which is looked for from
// a place before that, or from the first record.
pub(crate) fn place_before(
    heads: &[Head],
    records: &[LinkRecord],
    link: &Link,
    start: Option<usize>,
) -> Option<usize>
    requires ascend { AreAscendingHeads heads.now }
    requires chained { AreChained heads.now records.now }
    requires start { IsStart records.now link.now start }
    ensures { IsPlace records.now link.now result }
{
    let near = start_near(heads, records, link, start);
    place_from(heads, records, link, near)
}

// A place nearer to the link: that of the last link before it, or, in a long list, the latest of
// those that are looked at.
fn start_near(
    heads: &[Head],
    records: &[LinkRecord],
    link: &Link,
    start: Option<usize>,
) -> Option<usize>
    requires ascend { AreAscendingHeads heads.now }
    requires start { IsStart records.now link.now start }
    ensures { IsStart records.now link.now result }
{
    let mut place = start;
    'steps: for walked in 0..LONG {
        let next = next_of(heads, records, link.child, place);
        let further = start_of(records, link, next);
        if further.is_none() {
            return place;
        }
        place = leapt(records, link, further, walked);
    }
    latest(records, link, place)
}

// The same place, or, where the list is no longer a short one, a later one.
fn leapt(records: &[LinkRecord], link: &Link, place: Option<usize>, walked: usize) -> Option<usize>
    requires { IsStart records.now link.now place }
    ensures { IsStart records.now link.now result }
{
    if walked == SHORT {
        climbed(records, link, place)
    } else {
        place
    }
}

// A later place, found by ever smaller strides. That leads close to the link where its list lies in
// order, as it does after a load.
fn climbed(records: &[LinkRecord], link: &Link, place: Option<usize>) -> Option<usize>
    requires { IsStart records.now link.now place }
    ensures { IsStart records.now link.now result }
{
    let mut latest = place;
    let mut stride = records.len();
    'strides: for _ in 0..STRIDES {
        stride /= 2;
        if stride == 0 {
            return latest;
        }
        let other = latest.unwrap_or(0).saturating_add(stride);
        latest = later(records, link, latest, other);
    }
    latest
}

// The latest of the place and some that are spread over all records, of those before the link in its
// list.
fn latest(records: &[LinkRecord], link: &Link, place: Option<usize>) -> Option<usize>
    requires { IsStart records.now link.now place }
    ensures { IsStart records.now link.now result }
{
    let gap = records.len() / PROBES + 1;
    let mut latest = place;
    'probes: for probe in 0..PROBES {
        latest = later(records, link, latest, probe.saturating_mul(gap));
    }
    latest
}

// The other place, if it is that of a link before this one in its list and behind the first place.
fn later(records: &[LinkRecord], link: &Link, place: Option<usize>, other: usize) -> Option<usize>
    requires { IsStart records.now link.now place }
    ensures { IsStart records.now link.now result }
{
    match start_of(records, link, Some(other)) {
        Some(further) if is_behind(records, place, further) => Some(further),
        _ => place,
    }
}

// Whether the other place is that of a later link; no clause tells, since any start will do.
fn is_behind(records: &[LinkRecord], place: Option<usize>, other: usize) -> bool {
    let Some(place) = place else {
        return true;
    };
    edge_at(records, place) < edge_at(records, other)
}

// The place of the last link that stands before this one in its child's list, which is walked from a
// place before that, or from its first record.
fn place_from(
    heads: &[Head],
    records: &[LinkRecord],
    link: &Link,
    start: Option<usize>,
) -> Option<usize>
    requires ascend { AreAscendingHeads heads.now }
    requires chained { AreChained heads.now records.now }
    requires start { IsStart records.now link.now start }
    ensures { IsPlace records.now link.now result }
{
    let mut place = start;
    'places: while let Some(next) = next_of(heads, records, link.child, place) {
        let Some(other) = edge_at(records, next) else {
            return place;
        };
        if !precedes(&other, link) {
            return place;
        }
        place = Some(next);
    }
    place
}
