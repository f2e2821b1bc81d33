ghost use Rattle.std.specs.Prelude.{IfOk, OnOk};
ghost use Rattle.value_changes.specs.Reads.{IsOldValued};
ghost use Rattle.value_changes.specs.inside.Sets.{AreSetOf, AreAdded};
ghost use Rattle.value_changes.specs.inside.Touched.{oid_cmp, child_of, IsOldGiven, IsOldTouched};

use crate::valued::is_old_valued;
use index_traits::ValueOf;
use key_sort::{Key, set_by_key};
use lore_base::{Edge, NoMemory, Oid, OidBuf, Value};
use std::alloc::Global;

// The key of an object: its number.
struct ByNumber;

impl Key<Oid> for ByNumber {
    ghost key_of = { λ oid. oid.0 };

    fn key(oid: &Oid) -> u32 {
        oid.0
    }
}

// The objects that values are given to, of those that were live and have an atomic value before or
// afterwards, ascending, each once.
pub(crate) fn given_objects<V: ValueOf, W: ValueOf>(
    alloc: Global,
    given: &[(Oid, Value)],
    before: &V,
    after: &W,
) -> Result<OidBuf, NoMemory>
    ensures { IfOk result (λ oids. AreSetOf oid_cmp
        (IsOldGiven (V.objects before.now) (W.objects after.now) given.now) oids) }
{
    let mut oids = OidBuf::new(alloc);
    'given: for object in given {
        if is_old_valued(before, after, object.0) {
            oids.push(object.0)?;
        }
    }
    oids.sort_set();
    Ok(oids)
}

// These objects, and the children of lost and of fresh edges that were live and have an atomic value
// before or afterwards, ascending, each once. Where all objects are new there is none to be sorted.
pub(crate) fn touched_objects<V: ValueOf, W: ValueOf>(
    alloc: Global,
    lost: &[Edge],
    fresh: &[Edge],
    given: &[Oid],
    before: &V,
    after: &W,
) -> Result<OidBuf, NoMemory>
    ensures { IfOk result (λ oids. AreSetOf oid_cmp (IsOldTouched (V.objects before.now)
        (W.objects after.now) lost.now fresh.now given.now) oids) }
{
    let mut oids = OidBuf::new(alloc);
    oids.append(given)?;
    add_children(&mut oids, lost, before, after)?;
    add_children(&mut oids, fresh, before, after)?;
    let sorted = set_by_key::<Oid, ByNumber>(alloc, oids)?;
    Ok(sorted)
}

// Puts those children of the edges behind the objects that were live and have an atomic value before
// or afterwards.
fn add_children<V: ValueOf, W: ValueOf>(
    oids: &mut OidBuf,
    edges: &[Edge],
    before: &V,
    after: &W,
) -> Result<(), NoMemory>
    ensures { OnOk result (AreAdded child_of
        (IsOldValued (V.objects before.now) (W.objects after.now)) edges.now oids.old oids.new) }
{
    'edges: for edge in edges {
        if is_old_valued(before, after, edge.child) {
            oids.push(edge.child)?;
        }
    }
    Ok(())
}
