ghost use Rattle.std.specs.Prelude.{◌≡◌, ◌<◌, length, slice_index_or, All, IfSome, IfNone, true, is_some};
ghost use Rattle.std.specs.Bool.{OnTrue};
ghost use Rattle.edge_lists.specs.Types.{ObjectRecord as TheObject};
ghost use Rattle.edge_lists.specs.Links.{Fits};
ghost use Rattle.edge_lists.specs.Objects.{bare, first_of, with_first, head_of, AreAscendingObjects, IsLive, IsHeaded};

use crate::links::Link;
use crate::sides::Side;
use lore_base::{Oid, Value};

/// An object, and by key the first edges of its out list and of its in list.
#[derive(Debug, Drop)]
pub struct ObjectRecord {
    pub oid: Oid,
    pub value: Value,
    pub first_out: Link,
    pub first_in: Link,
}

impl ObjectRecord {
    /// An object that has no edges.
    pub fn alone(oid: Oid, value: Value) -> ObjectRecord
        ensures { result ≡ bare oid value }
    {
        ObjectRecord {
            oid,
            value,
            first_out: Link::none(),
            first_in: Link::none(),
        }
    }

    pub(crate) fn first(&self, side: Side) -> Option<usize>
        ensures { result ≡ first_of side self.now }
    {
        match side {
            Side::Out => self.first_out.key(),
            Side::In => self.first_in.key(),
        }
    }

    pub(crate) fn set_first(&mut self, side: Side, link: Option<usize>)
        requires { Fits link }
        ensures { self.new ≡ with_first side link self.old }
    {
        self.put_first(side, Link::to(link));
    }

    fn put_first(&mut self, side: Side, link: Link)
        ensures { self.new ≡ with_first side link self.old }
    {
        match side {
            Side::Out => self.first_out = link,
            Side::In => self.first_in = link,
        }
    }
}

/// The place of the object among ascending ones. It is looked for first where it stands while
/// numbers have no gap, and then by binary search, unless its number is above all others, as those of
/// new objects are.
pub fn place_of(objects: &[ObjectRecord], oid: Oid) -> Option<usize>
    requires { AreAscendingObjects objects.now }
    ensures inside { IfSome result (λ place. place < length objects.now) }
    ensures found { IfSome result (λ place. (d : TheObject) →
        (slice_index_or objects.now place d).oid ≡ oid) }
    ensures none { IfNone result (¬ IsLive objects.now oid) }
{
    let likely = likely_place(objects, oid);
    if stands_at(objects, likely, oid) {
        return Some(likely);
    }
    if are_below(objects, oid) {
        return None;
    }
    match objects.binary_search_by_key(&oid, |object| object.oid) {
        Ok(place) => Some(place),
        Err(_) => None,
    }
}

/// Whether all numbers are below this one, told by the last of them.
pub fn are_below(objects: &[ObjectRecord], oid: Oid) -> bool
    requires { AreAscendingObjects objects.now }
    ensures { OnTrue result (All (λ object. object.oid.0 < oid.0) objects.now) }
{
    match objects.last() {
        Some(last) => last.oid.0 < oid.0,
        None => true,
    }
}

// As far behind the first object as the number is above that one's.
fn likely_place(objects: &[ObjectRecord], oid: Oid) -> usize {
    match objects.first() {
        Some(first) => oid.0.saturating_sub(first.oid.0) as usize,
        None => 0,
    }
}

// Whether the object stands at this place.
fn stands_at(objects: &[ObjectRecord], place: usize, oid: Oid) -> bool
    ensures inside { result ≡ true → place < length objects.now }
    ensures found { result ≡ true → (d : TheObject) → (slice_index_or objects.now place d).oid ≡ oid }
{
    match objects.get(place) {
        Some(object) => object.oid == oid,
        None => false,
    }
}

// The key of the first edge of the object's list; None where it has none or isn't live.
pub(crate) fn head(objects: &[ObjectRecord], side: Side, oid: Oid) -> Option<usize>
    requires { AreAscendingObjects objects.now }
    ensures { result ≡ head_of side objects.now oid }
{
    match place_of(objects, oid) {
        Some(place) => first_at(objects, side, place),
        None => None,
    }
}

// The key of the first edge of the list of the object that stands at this place.
fn first_at(objects: &[ObjectRecord], side: Side, place: usize) -> Option<usize>
    requires { place < length objects.now }
    ensures { (d : TheObject) → result ≡ first_of side (slice_index_or objects.now place d) }
{
    match objects.get(place) {
        Some(object) => object.first(side),
        None => None,
    }
}

// Sets the first edge of a live object's list.
pub(crate) fn set_head(objects: &mut [ObjectRecord], side: Side, oid: Oid, link: Option<usize>)
    requires ascend { AreAscendingObjects objects.old }
    requires live { IsLive objects.old oid }
    requires fits { Fits link }
    ensures { IsHeaded objects.old side oid link objects.new }
{
    if let Some(place) = place_of(objects, oid) {
        objects[place].set_first(side, link);
    }
}

/// Whether the object has an edge in its list.
pub fn has_list(objects: &[ObjectRecord], side: Side, oid: Oid) -> bool
    requires { AreAscendingObjects objects.now }
    ensures { result ≡ is_some (head_of side objects.now oid) }
{
    head(objects, side, oid).is_some()
}
